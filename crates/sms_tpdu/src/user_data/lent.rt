//! Units of a text that are lent.

/// Septets of the default alphabet, each below 128, or 16-bit units of UCS-2, where they lie.
#[derive(Clone, Copy)]
pub enum UnitsView<'a> {
    Gsm(&'a [u8]),
    Ucs2(&'a [u16]),
}
