// What can be wrong with a font's file, and where it was seen.
use crate::{BANK_BYTES, GLYPHS, SUBROUTINES};
use std::alloc::{AllocError, AllocFailed};
use std::fmt;

#[derive(Clone, Copy, PartialEq, Eq)]
pub(crate) enum What {
    NotOpened,
    Missing,
    NoPermission,
    Directory,
    Empty,
    NotRead,
    OutOfMemory,
    TooLarge { limit: usize },
    OtherKind(Kind),
    NoSegment,
    SegmentCut,
    NoEexec,
    NotClosed,
    NoDigit,
    FontType,
    MultipleMaster,
    Blends,
    BadMatrix,
    BadLenIv,
    NoCharstrings,
    NoGlyphs,
    NoEnd,
    Damaged,
    NoLength,
    Cut,
    DamagedSubrs,
    NoSuchPlace,
    TooManySubroutines,
    TooLargeBank,
    TooManyGlyphs,
    ShortCharstring,
    ShortBody,
    Second,
    OtherWord,
}

impl What {
    // It was seen at a byte.
    pub(crate) fn at(self, at: usize) -> Trouble {
        Trouble {
            what: self,
            place: Some(Place { at, hidden: false }),
        }
    }

    // The text ended too soon.
    pub(crate) fn is_cut(self) -> bool {
        matches!(
            self,
            What::NotClosed
                | What::NoCharstrings
                | What::NoEnd
                | What::Damaged
                | What::NoLength
                | What::Cut
                | What::DamagedSubrs
        )
    }
}

impl fmt::Display for What {
    fn fmt<W: fmt::Write>(&self, f: &mut fmt::Formatter<W>) -> fmt::Result {
        match self {
            What::NotOpened => f.write_str("cannot be opened"),
            What::Missing => f.write_str("no such file"),
            What::NoPermission => f.write_str("no permission to read it"),
            What::Directory => f.write_str("a directory, no font"),
            What::Empty => f.write_str("an empty file"),
            What::NotRead => f.write_str("cannot be read"),
            What::OutOfMemory => f.write_str("no memory is left to read it"),
            What::TooLarge { limit } => write!(f, "too many bytes; the limit is {limit}"),
            What::OtherKind(kind) => write!(f, "no Type 1 font: it looks like {kind}"),
            What::NoSegment => f.write_str("no PFB segment"),
            What::SegmentCut => f.write_str("a PFB segment runs past the end of the file"),
            What::NoEexec => { f.write_str("no Type 1 font: no eexec is executed up to the end,") }
            What::NotClosed => f.write_str(
                "a string or a procedure that does not end, or that nothing opens,",
            ),
            What::NoDigit => f.write_str("no hexadecimal digit"),
            What::FontType => f.write_str("FontType is not 1"),
            What::MultipleMaster => f.write_str("a multiple-master font: WeightVector"),
            What::Blends => {
                f.write_str("a multiple-master font: one of OtherSubrs 14 to 18 is called")
            }
            What::BadMatrix => f.write_str("FontMatrix is not six finite numbers"),
            What::BadLenIv => f.write_str("lenIV is neither -1 nor 0 to 65535"),
            What::NoCharstrings => f.write_str("no CharStrings is defined up to the end,"),
            What::NoGlyphs => f.write_str("CharStrings with no glyph"),
            What::NoEnd => f.write_str("CharStrings ends without its end"),
            What::Damaged => f.write_str("CharStrings is damaged before its end"),
            What::NoLength => f.write_str("an entry with no length, or no bytes"),
            What::Cut => f.write_str("a length runs past the end"),
            What::DamagedSubrs => f.write_str("Subrs is damaged"),
            What::NoSuchPlace => f.write_str("a subroutine number beyond the array"),
            What::TooManySubroutines => {
                write!(f, "too many subroutines; the limit is {SUBROUTINES}")
            }
            What::TooLargeBank => {
                write!(
                    f,
                    "too many bytes of subroutines; the limit is {BANK_BYTES}"
                )
            }
            What::TooManyGlyphs => write!(f, "too many glyphs; the limit is {GLYPHS}"),
            What::ShortCharstring => f.write_str("a charstring shorter than lenIV"),
            What::ShortBody => f.write_str("a subroutine shorter than lenIV"),
            What::Second => f.write_str("Subrs or CharStrings is defined a second time"),
            What::OtherWord => f.write_str(
                "an entry is read or stored by another word than the first",
            ),
        }
    }
}

// What a file looks like that is no Type 1 font.
#[derive(Clone, Copy, PartialEq, Eq)]
pub(crate) enum Kind {
    TrueType,
    Collection,
    OpenType,
    WebFont,
    Png,
    Pdf,
    Metrics,
    WindowsMetrics,
    Gzip,
    Zip,
    Bitmap,
    BareCff,
}

impl fmt::Display for Kind {
    fn fmt<W: fmt::Write>(&self, f: &mut fmt::Formatter<W>) -> fmt::Result {
        f.write_str(match self {
            Kind::TrueType => "a TrueType font",
            Kind::Collection => "a TrueType collection",
            Kind::OpenType => "an OpenType font",
            Kind::WebFont => "a web font (WOFF)",
            Kind::Png => "a PNG picture",
            Kind::Pdf => "a PDF document",
            Kind::Metrics => "font metrics (AFM)",
            Kind::WindowsMetrics => "Windows font metrics (PFM)",
            Kind::Gzip => "a gzip file",
            Kind::Zip => "a zip file",
            Kind::Bitmap => "a bitmap font (BDF)",
            Kind::BareCff => "a bare CFF font",
        })
    }
}

// The byte of the file, and whether it is in the encrypted part.
#[derive(Clone, Copy, PartialEq, Eq)]
pub(crate) struct Place {
    pub at: usize,
    pub hidden: bool,
}

impl fmt::Display for Place {
    fn fmt<W: fmt::Write>(&self, f: &mut fmt::Formatter<W>) -> fmt::Result {
        write!(f, "byte {}", self.at)?;
        if self.hidden {
            return f.write_str(", in the encrypted part");
        }
        Ok(())
    }
}

// What is wrong with a file, and where, if it is at a place.
#[derive(Clone, Copy, PartialEq, Eq)]
pub(crate) struct Trouble {
    pub what: What,
    pub place: Option<Place>,
}

impl From<AllocError> for What {
    fn from(_: AllocError) -> What {
        What::OutOfMemory
    }
}

impl From<AllocError> for Trouble {
    fn from(_: AllocError) -> Trouble {
        What::OutOfMemory.into()
    }
}

impl<T: Drop> From<AllocFailed<T>> for Trouble {
    fn from(_: AllocFailed<T>) -> Trouble {
        What::OutOfMemory.into()
    }
}

impl From<What> for Trouble {
    fn from(what: What) -> Trouble {
        Trouble { what, place: None }
    }
}

impl fmt::Display for Trouble {
    fn fmt<W: fmt::Write>(&self, f: &mut fmt::Formatter<W>) -> fmt::Result {
        match self.place {
            Some(place) => write!(f, "{} at {place}", self.what),
            None => write!(f, "{}", self.what),
        }
    }
}
