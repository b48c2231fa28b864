//! Dates of the Gregorian calendar, and the days counted from 2000-01-01, which is day 0.
ghost use Rattle.std.specs.Prelude.{◌≡◌, ◌+◌, ◌^◌, ◌<◌, ◌≤◌, length, IfSome, if◌then◌else◌, Some, None};
ghost use Rattle.notation.specs.Calendar.{leap, year_length, month_length, days_before_year, days_before_month, real, to_day, dashed, read_date};
ghost use Rattle.notation.specs.Decimal.{numeral, number};

use crate::numbers::{is_numeral, number_in};
use std::fmt;

// The year of day 0.
const FIRST_YEAR: u16 = 2000;

#[derive(Debug, Clone, Copy, PartialEq, Eq)]
pub struct Date {
    pub year: u16,
    pub month: u8,
    pub day: u8,
}

impl Date {
    /// The date of a day, the only one that has it. It is no `From`, which would not say what the u16 counts.
    pub fn from_day(day: u16) -> Date
        ensures named { to_day result ≡ Some day }
        ensures only { (d : Date) → to_day d ≡ Some day → d ≡ result }
    {
        let (year, day) = split_year(day);
        let (month, day) = split_month(year, day);
        // By as: it fits, as the check proves, and try_from would answer an error that never comes.
        Date {
            year,
            month,
            day: day as u8 + 1,
        }
    }

    /// The day of a date, where there is such a date and its day fits.
    pub fn to_day(&self) -> Option<u16>
        ensures { result ≡ to_day self.now }
    {
        if !self.is_real() {
            return None;
        }
        let before = days_before_year(self.year) + days_before_month(self.year, self.month);
        u16::try_from(before + u32::from(self.day) - 1).ok()
    }

    // Whether there is such a date, from 2000 on.
    fn is_real(&self) -> bool
        ensures { result ≡ real self.now }
    {
        FIRST_YEAR <= self.year
            && (1..=12).contains(&self.month)
            && 1 <= self.day
            && u16::from(self.day) <= month_length(self.year, self.month)
    }
}

impl fmt::Display for Date {
    fn fmt<W: fmt::Write>(&self, f: &mut fmt::Formatter<W>) -> fmt::Result {
        let Date { year, month, day } = *self;
        write!(f, "{year:04}-{month:02}-{day:02}")
    }
}

/// Reads a date such as 2022-06-21, and gives its day. It takes bytes, since a `&str` asks more of a caller.
pub fn read_date(text: &[u8]) -> Option<u16>
    ensures { result ≡ read_date text.now }
{
    if !is_dashed(text) {
        return None;
    }
    // By as: they fit, as the check proves, and try_from would answer an error that never comes.
    let date = Date {
        year: few_digits(&text[..4])?,
        month: few_digits(&text[5..7])? as u8,
        day: few_digits(&text[8..10])? as u8,
    };
    date.to_day()
}

fn is_dashed(text: &[u8]) -> bool
    ensures { result ≡ dashed text.now }
{
    text.len() == 10 && text[4] == b'-' && text[7] == b'-'
}

// The number that a few digits write.
fn few_digits(text: &[u8]) -> Option<u16>
    requires { length text.now ≤ 4 }
    ensures value { result ≡ (if numeral text.now then Some (number 0 text.now) else None) }
    ensures bound { IfSome result (λ n. n < 10 ^ length text.now) }
{
    if is_numeral(text) {
        // By as: it fits, as the check proves, and try_from would answer an error that never comes.
        number_in(text).map(|n| n as u16)
    } else {
        None
    }
}

fn is_leap(year: u16) -> bool
    ensures { result ≡ leap year }
{
    year % 4 == 0 && (year % 100 != 0 || year % 400 == 0)
}

fn year_length(year: u16) -> u16
    ensures { result ≡ year_length year }
{
    if is_leap(year) { 366 } else { 365 }
}

fn month_length(year: u16, month: u8) -> u16
    ensures { result ≡ month_length year month }
{
    match month {
        2 if is_leap(year) => 29,
        2 => 28,
        4 | 6 | 9 | 11 => 30,
        _ => 31,
    }
}

// The days from 2000 on before a year: 365 for each year, and one for each leap year.
fn days_before_year(year: u16) -> u32
    requires { 2000 ≤ year }
    ensures value { result ≡ days_before_year year }
    ensures bound { result < 2 ^ 25 }
{
    let years = u32::from(year - FIRST_YEAR);
    365 * years + (years + 3) / 4 + (years + 399) / 400 - (years + 99) / 100
}

// The days of a year before a month.
fn days_before_month(year: u16, month: u8) -> u32
    requires first { 1 ≤ month }
    requires last { month ≤ 12 }
    ensures value { result ≡ days_before_month year month }
    ensures bound { result < 2 ^ 9 }
{
    (1..month).map(|m| u32::from(month_length(year, m))).sum()
}

// The year of a day, and the days before it in that year. A `while`: `find` over a range of years would
// answer an Option, with a None that never comes.
fn split_year(day: u16) -> (u16, u16)
    ensures first { 2000 ≤ result.0 }
    ensures sum { days_before_year result.0 + result.1 ≡ day }
    ensures within { result.1 < year_length result.0 }
{
    let mut year = FIRST_YEAR;
    let mut rest = day;
    while rest >= year_length(year) {
        rest -= year_length(year);
        year += 1;
    }
    (year, rest)
}

// The month of a day of a year, and the days before it in that month. A `while`, as for the year.
// Two functions: one that takes the lengths would have each caller prove where they end.
fn split_month(year: u16, day: u16) -> (u8, u16)
    requires { day < year_length year }
    ensures first { 1 ≤ result.0 }
    ensures last { result.0 ≤ 12 }
    ensures sum { days_before_month year result.0 + result.1 ≡ day }
    ensures within { result.1 < month_length year result.0 }
{
    let mut month = 1;
    let mut rest = day;
    while rest >= month_length(year, month) {
        rest -= month_length(year, month);
        month += 1;
    }
    (month, rest)
}
