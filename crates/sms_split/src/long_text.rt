//! Which text is split, and how its segments are told.

use sms_national::Language;
use sms_told::Form;

/// By which national language tables a text may be cut.
#[derive(Clone, Copy)]
pub enum Languages {
    /// By none.
    None,
    /// By those of a language.
    One(Language),
    /// By those of every language.
    All,
}

/// A text whose segments are asked for.
#[derive(Clone, Copy)]
pub struct LongText<'a> {
    /// The text (TP-UD of its segments).
    pub text: &'a str,
    /// Whether the reference takes two octets.
    pub wide: bool,
    /// The concatenation reference of its segments.
    pub reference: u16,
    /// How the segments are written.
    pub form: Form,
    /// By which national language tables the text may be cut.
    pub languages: Languages,
    /// Whether each segment is told as user data alone, with what tells how they are read.
    pub is_data: bool,
    /// Whether septets stand one an octet.
    pub is_single: bool,
}
