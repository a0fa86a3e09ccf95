// The point that a path reaches.
ghost use Rattle.std.specs.Prelude.{◌≡◌, true};

// A coordinate of 2 ^ 60 units below 0.
const LEAST: u64 = 1152921504606846976;

// A coordinate of 2 ^ 60 units.
const GREATEST: u64 = 3458764513820540928;

/// A point, each coordinate as its units of 1/65536 and 2 ^ 61.
#[derive(Clone, Copy)]
pub struct Position {
    pub x: u64,
    pub y: u64,
}

impl Position {
    ghost use Rattle.renderer.specs.Reader.{is_near};
    ghost use Rattle.renderer.specs.Reads.{Moves, Follows};

    // Whether each coordinate is within 2 ^ 60 units of 0.
    pub(crate) fn is_near(self) -> bool
        ensures { result ≡ is_near self }
    {
        (LEAST..=GREATEST).contains(&self.x) && (LEAST..=GREATEST).contains(&self.y)
    }

    // With a pair of deltas; none where a coordinate is then beyond 2 ^ 60 units.
    fn moved(self, dx: u32, dy: u32) -> Option<Position>
        requires { is_near self ≡ true }
        ensures { Moves self dx dy result }
    {
        let to = Position {
            x: self.x + u64::from(dx) - 2147483648,
            y: self.y + u64::from(dy) - 2147483648,
        };
        to.is_near().then_some(to)
    }

    // With one pair of deltas after another.
    pub(crate) fn follow(self, deltas: &[u32]) -> Option<Position>
        requires { is_near self ≡ true }
        ensures { Follows self deltas.now result }
    {
        let mut to = self;
        for &[dx, dy] in deltas.as_chunks::<2>().0 {
            to = to.moved(dx, dy)?;
        }
        Some(to)
    }
}
