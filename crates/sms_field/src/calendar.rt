//! Days of 2000 to 2099 by their numbers.

ghost use Rattle.std.specs.Prelude.{◌≡◌, ◌↔◌, ◌<◌, IsTrue, IsSome, IfSome};
ghost use Rattle.sms_field.specs.Time.Days.{IsDay, days_before};

use jiff_core::civil::Date;

/// The days from 2000-01-01 to a date of 2000 to 2099; none where the date does not exist.
pub fn days_since_2000(year: u16, month: u8, day: u8) -> Option<u64>
    ensures found { IsSome result ↔ IsDay year month day }
    ensures value { IfSome result (λ n. n ≡ days_before year month day) }
{
    if year < 2000 || year > 2099 || month > 12 || day > 31 {
        return None;
    }
    match Date::new(year as i16, month as i8, day as i8) {
        Ok(date) => Some((date.days_since_min() - 4_382_544) as u64),
        Err(_) => None,
    }
}

/// Whether a date of 2000 to 2099 exists.
pub fn is_day(year: u16, month: u8, day: u8) -> bool
    ensures { IsTrue result ↔ IsDay year month day }
{
    days_since_2000(year, month, day).is_some()
}

/// The date of a day that lies that many days after 2000-01-01.
pub fn date_of(days: u64) -> (u16, u8, u8)
    requires { days < 36_525 }
    ensures date { IsDay result.0 result.1 result.2 }
    ensures value { days_before result.0 result.1 result.2 ≡ days }
{
    let date = Date::from_days_since_min(days as u32 + 4_382_544);
    (date.year as u16, date.month, date.day)
}
