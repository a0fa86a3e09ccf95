// Operators, by T1's names: a byte, or 256 and the byte after a 12. Codes, as they are read: an enum would need a table from
// each code to its variant, which says no more.
pub(crate) const HSTEM: u16 = 1;

pub(crate) const VSTEM: u16 = 3;

pub(crate) const VMOVETO: u16 = 4;

pub(crate) const RLINETO: u16 = 5;

pub(crate) const HLINETO: u16 = 6;

pub(crate) const VLINETO: u16 = 7;

pub(crate) const RRCURVETO: u16 = 8;

pub(crate) const CLOSEPATH: u16 = 9;

// As a byte, for `token`.
pub(crate) const CLOSEPATH_BYTE: u8 = CLOSEPATH as u8;

pub(crate) const CALLSUBR: u16 = 10;

pub(crate) const RETURN: u16 = 11;

pub(crate) const HSBW: u16 = 13;

pub(crate) const ENDCHAR: u16 = 14;

pub(crate) const RMOVETO: u16 = 21;

pub(crate) const HMOVETO: u16 = 22;

pub(crate) const VHCURVETO: u16 = 30;

pub(crate) const HVCURVETO: u16 = 31;

// The byte before an operator's own, and what is then added to it.
pub(crate) const ESCAPE: u8 = 12;

pub(crate) const ESCAPED: u16 = 256;

pub(crate) const DOTSECTION: u16 = ESCAPED;

pub(crate) const VSTEM3: u16 = ESCAPED + 1;

pub(crate) const HSTEM3: u16 = ESCAPED + 2;

pub(crate) const SEAC: u16 = ESCAPED + 6;

pub(crate) const SBW: u16 = ESCAPED + 7;

pub(crate) const DIV: u16 = ESCAPED + 12;

pub(crate) const CALLOTHERSUBR: u16 = ESCAPED + 16;

pub(crate) const POP: u16 = ESCAPED + 17;

pub(crate) const SETCURRENTPOINT: u16 = ESCAPED + 33;
