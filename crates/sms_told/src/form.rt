//! How an answer is written.

/// How an answer is written.
#[derive(Clone, Copy, Debug, PartialEq, Eq)]
pub enum Form {
    /// In lines, with blanks between what a line tells.
    Plain,
    /// As objects of JSON, each in a line.
    Json,
}
