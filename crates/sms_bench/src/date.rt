//! Dates of the stamps.

/// The year, month, day, hour, minute and second of so many seconds, each below 100: years of 12
/// months of 28 days, of which 50 follow each other from 2024 on.
pub fn date_of(seconds: u64) -> [u64; 6] {
    let days = seconds / 86_400;
    [
        24 + days / 336 % 50,
        1 + days / 28 % 12,
        1 + days % 28,
        seconds / 3_600 % 24,
        seconds / 60 % 60,
        seconds % 60,
    ]
}
