//! The words that choose how the other columns of a row are read.

ghost use Rattle.std.specs.Prelude.{◌≡◌};
ghost use Rattle.ghg_import.specs.Kinds.{binding_form_in, kind_in};

use ghg_units::Unit;

/// What a row is about, as its kind column names it.
#[derive(Clone, Copy, Debug, PartialEq, Eq, Drop)]
pub(crate) enum Kind {
    Span,
    Activity,
    Factor,
    Line,
    Bind,
    Uncert,
}

/// The kind that a word names.
pub(crate) fn kind_named(text: &[u8]) -> Option<Kind>
    ensures { result ≡ kind_in text.now }
{
    if text == b"span".as_slice() {
        Some(Kind::Span)
    } else if text == b"activity".as_slice() {
        Some(Kind::Activity)
    } else if text == b"factor".as_slice() {
        Some(Kind::Factor)
    } else if text == b"line".as_slice() {
        Some(Kind::Line)
    } else if text == b"bind".as_slice() {
        Some(Kind::Bind)
    } else if text == b"uncert".as_slice() {
        Some(Kind::Uncert)
    } else {
        None
    }
}

/// What a parameter is bound to, as the value column of a binding names it.
#[derive(Clone, Copy, Debug, PartialEq, Eq, Drop)]
pub(crate) enum BindingForm {
    Activity,
    Factor,
    Line,
    Prev,
    Sum,
    Decay,
    Key,
}

/// The form of a binding that a word names.
pub(crate) fn binding_form_named(text: &[u8]) -> Option<BindingForm>
    ensures { result ≡ binding_form_in text.now }
{
    if text == b"activity".as_slice() {
        Some(BindingForm::Activity)
    } else if text == b"factor".as_slice() {
        Some(BindingForm::Factor)
    } else if text == b"line".as_slice() {
        Some(BindingForm::Line)
    } else if text == b"prev".as_slice() {
        Some(BindingForm::Prev)
    } else if text == b"sum".as_slice() {
        Some(BindingForm::Sum)
    } else if text == b"decay".as_slice() {
        Some(BindingForm::Decay)
    } else if text == b"key".as_slice() {
        Some(BindingForm::Key)
    } else {
        None
    }
}

/// How a row is filled.
#[derive(Clone, Copy, Debug, PartialEq, Eq, Drop)]
pub(crate) enum Manner {
    /// It withdraws its record, and has the columns of the key alone.
    Withdraws,
    /// It is a factor in the unit of half-lives, and its value is a half-life.
    InYears,
    /// Its value is a notation key.
    Keyed,
    /// It has any other value.
    Valued,
}

/// What the format of a body and a row's words choose for the other columns of the row.
#[derive(Clone, Copy, Drop)]
pub(crate) struct Chosen {
    /// The format of the body, by which a half-life is read.
    pub(crate) format: u32,
    pub(crate) manner: Manner,
    /// The unit of its figures, if it names one.
    pub(crate) unit: Option<Unit>,
    /// Whether it names a form of a binding and a target of that form.
    pub(crate) binds: bool,
}
