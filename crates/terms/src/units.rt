//! What each number counts, and how large it may be.
ghost use Rattle.std.specs.Prelude.{◌≡◌};
ghost use Rattle.terms.specs.Units.{is_day, is_price, is_units, is_ratio, is_rate, is_cash, is_number, is_lots};

/// Days from 1 January 2000, which is day 0.
pub type Day = u16;
/// A price, in cents.
pub type Cents = u32;
/// Shares, in ten-thousandths of a share.
pub type ShareUnits = u32;
/// New shares for one old share, or shares subscribed for one share, in billionths.
pub type Billionths = u64;
/// Cash for one share, in millionths of a dollar.
pub type CashPerShare = u32;
/// Whole dollars: the cash in a lot, what a claim is worth.
pub type Dollars = u32;
/// Values, in millionths of a dollar.
pub type Micros = u64;

/// A dollar in micros.
pub const DOLLAR: Micros = 1_000_000;

pub const LAST_DAY: Day = 60_000;

pub const LARGEST_PRICE: Cents = 1_000_000;

pub const LARGEST_UNITS: ShareUnits = 400_000_000;

pub const LARGEST_RATIO: Billionths = 10_000_000_000;

pub const LARGEST_RATE: Billionths = 1_000_000_000;

pub const LARGEST_CASH: CashPerShare = 500_000_000;

pub const LARGEST_LOT_CASH: Dollars = 100_000_000;

pub const LARGEST_CLAIM: Dollars = 400_000_000;

pub const LARGEST_VALUE: Micros = 1_000_000_000_000_000;

pub const MOST_LOTS: u16 = 4_000;

pub const MOST_EQUITY: i64 = 4_000_000_000_000_000_000;

pub const LAST_LEVEL: u8 = 9;

/// The ratio of an event that leaves the number of shares as it is.
pub const ONE: Billionths = 1_000_000_000;

pub fn is_day(day: Day) -> bool
    ensures { result ≡ is_day day }
{
    day <= LAST_DAY
}

pub fn is_price(cents: Cents) -> bool
    ensures { result ≡ is_price cents }
{
    (1..=LARGEST_PRICE).contains(&cents)
}

pub fn is_units(units: ShareUnits) -> bool
    ensures { result ≡ is_units units }
{
    (1..=LARGEST_UNITS).contains(&units)
}

/// Whether an account or stock may have this number.
pub fn is_number(number: u32) -> bool
    ensures { result ≡ is_number number }
{
    1 <= number
}

/// Whether a trade may be of so many lots.
pub fn is_lots(lots: u16) -> bool
    ensures { result ≡ is_lots lots }
{
    (1..=MOST_LOTS).contains(&lots)
}

pub(crate) fn is_ratio(ratio: Billionths) -> bool
    ensures { result ≡ is_ratio ratio }
{
    (1..=LARGEST_RATIO).contains(&ratio)
}

pub(crate) fn is_rate(rate: Billionths) -> bool
    ensures { result ≡ is_rate rate }
{
    rate <= LARGEST_RATE
}

pub(crate) fn is_cash(cash: CashPerShare) -> bool
    ensures { result ≡ is_cash cash }
{
    cash <= LARGEST_CASH
}
