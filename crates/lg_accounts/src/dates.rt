//! Wall times as dates and times of the day, in UTC.
//!
//! Defined in: `specs/Meaning/Dates.antt`.
//! Tested in: `lg_explain_tests/src/texts.rt`.
ghost use Rattle.std.specs.Prelude.{◌≡◌, ◌<◌, ◌≤◌, ◌^◌, ◌++◌, OnOk, string_bytes};
ghost use Rattle.lg_accounts.specs.Meaning.Dates.{clock_text, date_of, date_text, day_text, days_until, march_day};
ghost use Rattle.lg_accounts.specs.Meaning.Dates.{two_digits, year_digits};

use lg_detector::NoMemory;

/// The milliseconds of a day.
const DAY_MS: u64 = 86_400_000;

/// The seconds of a day.
const DAY_SECONDS: u64 = 86_400;

/// The days from the first of March of the year 0 to the first of January of 1970.
const DAYS_BEFORE_1970: u64 = 719_468;

/// The days of 400 years.
const FOUR_CENTURIES: u64 = 146_097;

/// The days of a century, but for one of four, which has one more.
const CENTURY: u64 = 36_524;

/// The days of four years, but for the last of some centuries, which have one less.
const FOUR_YEARS: u64 = 1_461;

/// The days of a year, but for a leap year.
const YEAR: u64 = 365;

/// A day of a year that begins in March.
#[derive(Clone, Copy, Debug, PartialEq, Eq)]
struct MarchDay {
    /// The year.
    year: u64,
    /// The day of it, from 0.
    day: u64,
}

/// A day of the calendar.
#[derive(Clone, Copy, Debug, PartialEq, Eq)]
struct Date {
    /// The year.
    year: u64,
    /// The month, 1 to 12.
    month: u64,
    /// The day of it, from 1.
    day: u64,
}

/// How many days before a wall time began since the first of March of the year 0.
fn days_until(wall_ms: u64) -> u64
    ensures days { result ≡ days_until wall_ms }
    ensures within { result < 2 ^ 38 }
{
    wall_ms / DAY_MS + DAYS_BEFORE_1970
}

/// The day behind so many days.
#[tactic(auto, unfolding(crate::specs::Meaning::Dates::march_day))]
fn march_day(days: u64) -> MarchDay
    requires { days < 2 ^ 38 }
    ensures day { result ≡ march_day days }
    ensures within { result.year < 2 ^ 40 }
    ensures short { result.day < 2 ^ 11 }
{
    let centuries = (days % FOUR_CENTURIES / CENTURY).min(3);
    let day = days % FOUR_CENTURIES - CENTURY * centuries;
    let years = (day % FOUR_YEARS / YEAR).min(3);
    MarchDay {
        year: 400 * (days / FOUR_CENTURIES) + 100 * centuries + 4 * (day / FOUR_YEARS) + years,
        day: day % FOUR_YEARS - YEAR * years,
    }
}

/// The same day in the calendar. Five months, from March on, have 153 days.
#[tactic(auto, unfolding(crate::specs::Meaning::Dates::date_of))]
fn date_of(it: MarchDay) -> Date
    requires within { it.year < 2 ^ 40 }
    requires short { it.day < 2 ^ 11 }
    ensures { result ≡ date_of it }
{
    let month = (5 * it.day + 2) / 153;
    let day = it.day - (153 * month + 2) / 5 + 1;
    if month < 10 {
        Date {
            year: it.year,
            month: month + 3,
            day,
        }
    } else {
        Date {
            year: it.year + 1,
            month: month - 9,
            day,
        }
    }
}

/// Appends a number below 100, with two digits.
fn put_two_digits(number: u64, text: &mut String) -> Result<(), NoMemory>
    ensures { OnOk result (string_bytes text.new ≡ string_bytes text.old ++ two_digits number) }
{
    let tens = number / 10;
    let ones = number % 10;
    write!(text, "{tens}{ones}")
}

/// Appends a year, with four digits or more.
#[tactic(auto, unfolding(crate::specs::Meaning::Dates::year_digits))]
fn put_year(year: u64, text: &mut String) -> Result<(), NoMemory>
    ensures { OnOk result (string_bytes text.new ≡ string_bytes text.old ++ year_digits year) }
{
    let thousands = year / 1000;
    let hundreds = year / 100 % 10;
    write!(text, "{thousands}{hundreds}")?;
    put_two_digits(year % 100, text)
}

/// Appends a day of the calendar.
#[tactic(auto, unfolding(crate::specs::Meaning::Dates::day_text))]
fn put_day(date: Date, text: &mut String) -> Result<(), NoMemory>
    ensures { OnOk result (string_bytes text.new ≡ string_bytes text.old ++ day_text date) }
{
    put_year(date.year, text)?;
    text.push_str("-")?;
    put_two_digits(date.month, text)?;
    text.push_str("-")?;
    put_two_digits(date.day, text)
}

/// Appends the time of the day at a second of it.
#[tactic(auto, unfolding(crate::specs::Meaning::Dates::clock_text))]
fn put_clock(second: u64, text: &mut String) -> Result<(), NoMemory>
    ensures { OnOk result (string_bytes text.new ≡ string_bytes text.old ++ clock_text second) }
{
    put_two_digits(second / 3600, text)?;
    text.push_str(":")?;
    put_two_digits(second / 60 % 60, text)?;
    text.push_str(":")?;
    put_two_digits(second % 60, text)
}

/// Appends a wall time, in milliseconds since the beginning of 1970 in UTC, as `YYYY-MM-DD HH:MM:SS`.
#[tactic(auto, unfolding(crate::specs::Meaning::Dates::date_text))]
pub(crate) fn put_date(wall_ms: u64, text: &mut String) -> Result<(), NoMemory>
    ensures { OnOk result (string_bytes text.new ≡ string_bytes text.old ++ date_text wall_ms) }
{
    put_day(date_of(march_day(days_until(wall_ms))), text)?;
    text.push_str(" ")?;
    put_clock(wall_ms / 1000 % DAY_SECONDS, text)
}
