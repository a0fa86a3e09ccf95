// Windows, and how the box of a finished glyph lies to one.
use crate::doubles::Units;
use crate::number::Signed;
use boxes::{Bounds, Boxed, Verdict};
use std::fmt;

// How a finished charstring lies to a window; `None` where it draws no point.
pub(crate) fn judge(program: &[u8], window: Bounds) -> Option<Boxed> {
    boxes::glyph_box(program, window).ok()
}

// A number of 1/65536s as a window's, if it is one.
pub(crate) fn side(n: Signed) -> Option<i64> {
    if n.negative {
        0i64.checked_sub_unsigned(n.value)
    } else {
        i64::try_from(n.value).ok()
    }
}

// The four numbers of a box or a window.
#[derive(Clone, Copy)]
pub(crate) struct Corners(pub Bounds);

impl fmt::Display for Corners {
    fn fmt<W: fmt::Write>(&self, f: &mut fmt::Formatter<W>) -> fmt::Result {
        let left = Units(self.0.left);
        let bottom = Units(self.0.bottom);
        let right = Units(self.0.right);
        let top = Units(self.0.top);
        write!(f, "{left} {bottom} {right} {top}")
    }
}

// The two columns of the table: the verdict, and the box.
#[derive(Clone, Copy)]
pub(crate) struct Columns(pub Option<Boxed>);

impl fmt::Display for Columns {
    fn fmt<W: fmt::Write>(&self, f: &mut fmt::Formatter<W>) -> fmt::Result {
        let Some(boxed) = self.0 else {
            return f.write_str("no point  -");
        };
        let corners = Corners(boxed.bounds);
        match boxed.verdict {
            Verdict::Within => write!(f, "within    {corners}"),
            Verdict::Crossing => write!(f, "crossing  {corners}"),
            Verdict::Outside => write!(f, "outside   {corners}"),
        }
    }
}
