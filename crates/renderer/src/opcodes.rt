// The operators of Type 2 charstrings. TN#5177, appendix A.
ghost use Rattle.std.specs.Prelude.{◌≡◌, drop};

// An operator that the machine knows. The four that declare stems are one.
#[derive(Clone, Copy)]
pub(crate) enum Opcode {
    Stem,
    HintMask,
    RMoveTo,
    HMoveTo,
    VMoveTo,
    RLineTo,
    RRCurveTo,
    EscapeFlex,
    EndChar,
}

impl Opcode {
    ghost use Rattle.renderer.specs.Reads.{plain, spare_of, skip_of};

    // The operator that the byte b begins, of which the bytes after b begin at `at`. A flex is 12 35.
    #[tactic(auto, unfolding(crate::specs::Reads::plain))]
    pub(crate) fn read(program: &[u8], at: usize, b: u8) -> Option<Opcode>
        ensures { result ≡ plain b (drop at program.now) }
    {
        match b {
            1 | 3 | 18 | 23 => Some(Opcode::Stem),
            4 => Some(Opcode::VMoveTo),
            5 => Some(Opcode::RLineTo),
            8 => Some(Opcode::RRCurveTo),
            12 if program.get(at) == Some(&35) => Some(Opcode::EscapeFlex),
            14 => Some(Opcode::EndChar),
            19 => Some(Opcode::HintMask),
            21 => Some(Opcode::RMoveTo),
            22 => Some(Opcode::HMoveTo),
            _ => None,
        }
    }

    // How many of so many operands it leaves over; none where it takes more.
    fn spare(self, count: usize) -> Option<usize>
        ensures { result ≡ spare_of self count }
    {
        match self {
            Opcode::Stem | Opcode::RLineTo => (2 <= count).then_some(count % 2),
            Opcode::RRCurveTo => (6 <= count).then_some(count % 6),
            Opcode::RMoveTo => count.checked_sub(2),
            Opcode::HMoveTo | Opcode::VMoveTo => count.checked_sub(1),
            Opcode::EscapeFlex => count.checked_sub(13),
            Opcode::HintMask | Opcode::EndChar => Some(count),
        }
    }

    // Where its operands start: 1 where one more is the width.
    pub(crate) fn first_operand(self, count: usize, begun: bool) -> Option<usize>
        ensures { result ≡ skip_of self count begun }
    {
        match self.spare(count)? {
            0 => Some(0),
            1 if !begun => Some(1),
            _ => None,
        }
    }
}
