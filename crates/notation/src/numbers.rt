//! Decimal numbers: read exactly in units of a power of ten, and written again.
ghost use Rattle.std.specs.Prelude.{◌≡◌, ◌/◌, ◌%◌, ◌^◌, ◌≤◌, ◌==◌, length, position, All};
ghost use Rattle.notation.specs.Decimal.{number, numeral, worth, fitted, units, read_decimal, trim};
ghost use Rattle.std.specs.Bool.{OnTrue};
ghost use Rattle.std.specs.Char.{IsAsciiDigit};

use std::fmt;

/// Why a text is not read as a number.
#[derive(Debug, Clone, Copy, PartialEq, Eq)]
pub enum Misread {
    NotANumber,
    TooManyDecimals,
    TooLarge,
}

impl fmt::Display for Misread {
    fn fmt<W: fmt::Write>(&self, f: &mut fmt::Formatter<W>) -> fmt::Result {
        let words = match self {
            Misread::NotANumber => "not a number",
            Misread::TooManyDecimals => "too many decimals",
            Misread::TooLarge => "too large",
        };
        f.write_str(words)
    }
}

/// Reads a number such as 78 or 0.05, exactly, in units of 10^-places. It takes bytes, since a `&str` asks
/// more of a caller.
pub fn read_decimal(text: &[u8], places: u8) -> Result<u64, Misread>
    ensures { result ≡ read_decimal text.now places }
{
    match point_in(text) {
        None if is_numeral(text) => in_units(text, &[], places),
        Some(point) if is_numeral(&text[..point]) && is_numeral(&text[point + 1..]) => {
            in_units(&text[..point], &text[point + 1..], places)
        }
        _ => Err(Misread::NotANumber),
    }
}

// Where the first point stands.
fn point_in(text: &[u8]) -> Option<usize>
    ensures { result ≡ position (λ c. c == 46) text.now }
{
    text.iter().position(|b| *b == b'.')
}

// Whether the text is one digit or more.
pub(crate) fn is_numeral(text: &[u8]) -> bool
    ensures value { result ≡ numeral text.now }
    ensures digits { OnTrue result (All IsAsciiDigit text.now) }
{
    !text.is_empty() && text.iter().all(u8::is_ascii_digit)
}

// The number that some digits write, where it fits.
pub(crate) fn number_in(text: &[u8]) -> Option<u64>
    requires { All IsAsciiDigit text.now }
    ensures { result ≡ fitted (number 0 text.now) }
{
    text.iter().try_fold(
        0u64,
        |n, b| n.checked_mul(10)?.checked_add(u64::from(*b - b'0')),
    )
}

// The number with these digits before and after its point, in units of 10^-places.
fn in_units(whole: &[u8], decimals: &[u8], places: u8) -> Result<u64, Misread>
    requires whole { All IsAsciiDigit whole.now }
    requires decimals { All IsAsciiDigit decimals.now }
    ensures { result ≡ units whole.now decimals.now places }
{
    if decimals.len() > usize::from(places) {
        return Err(Misread::TooManyDecimals);
    }
    if places > 18 {
        return Err(Misread::TooLarge);
    }
    scaled(whole, decimals, places).ok_or(Misread::TooLarge)
}

// The same where the places are few and no decimals are too many.
fn scaled(whole: &[u8], decimals: &[u8], places: u8) -> Option<u64>
    requires whole { All IsAsciiDigit whole.now }
    requires decimals { All IsAsciiDigit decimals.now }
    requires within { length decimals.now ≤ places }
    requires few { places ≤ 18 }
    ensures { result ≡ fitted (worth whole.now decimals.now places) }
{
    let places = u32::from(places);
    // By as: it fits, as the check proves, and try_from would answer an error that never comes.
    let written = decimals.len() as u32;
    let whole = number_in(whole)?.checked_mul(10u64.pow(places))?;
    let decimals = number_in(decimals)?.checked_mul(10u64.pow(places - written))?;
    whole.checked_add(decimals)
}

/// A number of units of 10^-places, written as 3,200.00.
#[derive(Debug, Clone, Copy, PartialEq, Eq)]
pub struct Decimal {
    pub value: u64,
    pub places: u8,
}

impl Decimal {
    /// The same number, without the zeros that its decimals end in. A `while`: their number is not known before.
    pub fn trimmed(mut self) -> Decimal
        ensures { result ≡ trim self.value self.places }
    {
        while self.places > 0 && self.value % 10 == 0 {
            self.value /= 10;
            self.places -= 1;
        }
        self
    }

    // The whole part, and the decimals as a number.
    fn parts(self) -> (u64, u64)
        ensures whole { result.0 ≡ self.value / 10 ^ self.places }
        ensures decimals { result.1 ≡ self.value % 10 ^ self.places }
    {
        match 10u64.checked_pow(u32::from(self.places)) {
            Some(unit) => (self.value / unit, self.value % unit),
            None => (0, self.value),
        }
    }
}

impl fmt::Display for Decimal {
    fn fmt<W: fmt::Write>(&self, f: &mut fmt::Formatter<W>) -> fmt::Result {
        let (whole, decimals) = self.parts();
        write_grouped(whole, f)?;
        if self.places == 0 {
            return Ok(());
        }
        let width = usize::from(self.places);
        write!(f, ".{decimals:0width$}")
    }
}

// Writes a number with a comma before each three of its last digits.
fn write_grouped<W: fmt::Write>(n: u64, f: &mut fmt::Formatter<W>) -> fmt::Result {
    if n < 1000 {
        return write!(f, "{n}");
    }
    write_grouped(n / 1000, f)?;
    let last = n % 1000;
    write!(f, ",{last:03}")
}
