// The kinds of vectors, in the order in which their files are read.
use crate::vector::Form;

#[derive(Clone, Copy, PartialEq, Eq)]
pub(crate) enum Kind {
    Round,
    Floor,
    Abs,
    IsFinite,
    ToUsize,
    ToI64,
    Round10,
    TransformPoint,
    TransformDelta,
    DecryptCharstring,
    Quantize,
    PushNumber,
    AdobeNumbers,
    ChooseWidths,
    Run,
    Convert,
    Strict,
    Finish,
    Closepaths,
    GlyphBox,
    BoxOfRun,
}

pub(crate) const KINDS: [Kind; 21] = [
    Kind::Round,
    Kind::Floor,
    Kind::Abs,
    Kind::IsFinite,
    Kind::ToUsize,
    Kind::ToI64,
    Kind::Round10,
    Kind::TransformPoint,
    Kind::TransformDelta,
    Kind::DecryptCharstring,
    Kind::Quantize,
    Kind::PushNumber,
    Kind::AdobeNumbers,
    Kind::ChooseWidths,
    Kind::Run,
    Kind::Convert,
    Kind::Strict,
    Kind::Finish,
    Kind::Closepaths,
    Kind::GlyphBox,
    Kind::BoxOfRun,
];

impl Kind {
    pub(crate) fn file(self) -> &'static str {
        match self {
            Kind::Round => "round.vec",
            Kind::Floor => "floor.vec",
            Kind::Abs => "abs.vec",
            Kind::IsFinite => "is_finite.vec",
            Kind::ToUsize => "to_usize.vec",
            Kind::ToI64 => "to_i64.vec",
            Kind::Round10 => "round10.vec",
            Kind::TransformPoint => "transform_point.vec",
            Kind::TransformDelta => "transform_delta.vec",
            Kind::DecryptCharstring => "decrypt_charstring.vec",
            Kind::Quantize => "quantize.vec",
            Kind::PushNumber => "push_number.vec",
            Kind::AdobeNumbers => "adobe_numbers.vec",
            Kind::ChooseWidths => "choose_widths.vec",
            Kind::Run => "run.vec",
            Kind::Convert => "convert.vec",
            Kind::Strict => "strict.vec",
            Kind::Finish => "finish.vec",
            Kind::Closepaths => "closepaths.vec",
            Kind::GlyphBox => "glyph_box.vec",
            Kind::BoxOfRun => "box_of_run.vec",
        }
    }

    // The byte that a vector begins with.
    pub(crate) fn byte(self) -> u8 {
        match self {
            Kind::Round => 1,
            Kind::Floor => 2,
            Kind::Abs => 3,
            Kind::IsFinite => 4,
            Kind::ToUsize => 5,
            Kind::ToI64 => 6,
            Kind::Round10 => 7,
            Kind::TransformPoint => 8,
            Kind::TransformDelta => 9,
            Kind::DecryptCharstring => 10,
            Kind::Quantize => 11,
            Kind::PushNumber => 12,
            Kind::ChooseWidths => 13,
            Kind::Run => 14,
            Kind::Convert => 15,
            Kind::Finish => 16,
            Kind::Closepaths => 17,
            Kind::AdobeNumbers => 18,
            Kind::GlyphBox => 19,
            Kind::BoxOfRun => 20,
            Kind::Strict => 21,
        }
    }

    pub(crate) fn form(self) -> Form {
        match self {
            Kind::Convert | Kind::Strict | Kind::Closepaths | Kind::GlyphBox | Kind::BoxOfRun => {
                Form::Short
            }
            _ => Form::Long,
        }
    }
}
