//! Why a call is turned down.
ghost use Rattle.std.specs.Prelude.{◌≡◌};
ghost use Rattle.terms.specs.Refusals.{number_of};

use std::fmt;

/// The reasons, in the order of their numbers: where several fit, the smaller number is given.
#[derive(Clone, Copy, PartialEq, Eq, PartialOrd, Ord, Debug)]
pub enum Refusal {
    Malformed = 1,
    OutsideUnits = 2,
    Misfit = 3,
    IllFormedEvent = 4,
    SameAccount = 5,
    DeadlineOutOfOrder = 6,
    NoReferencePrice = 7,
    UnknownMark = 8,
    CutShort = 9,
    UnknownBook = 10,
    DayPassed = 11,
    NoLine = 12,
    NameTaken = 13,
    PrefixConflict = 14,
    LinesFull = 15,
    AccountNotOpen = 16,
    AccountOpen = 17,
    AccountsFull = 18,
    WrongSideOfExpiry = 19,
    LapsedLine = 20,
    LevelPastNine = 21,
    LotOutsideLimits = 22,
    ClaimInTheWay = 23,
    NoClaimToFix = 24,
    ClaimNotFixed = 25,
    LotsPastLimit = 26,
    EquityPastLimit = 27,
}

impl Refusal {
    /// The number that the rules give the reason. (`u8::from(refusal)` would say less than this name.)
    pub fn number(self) -> u8
        ensures { result ≡ number_of self }
    {
        self as u8
    }

    fn words(self) -> &'static str {
        match self {
            Refusal::Malformed =>
                "a code or prefix is malformed, or its letter is not the family's or not the standard one",
            Refusal::OutsideUnits => "a number is outside its limits",
            Refusal::Misfit => "the right or the strike does not fit the family",
            Refusal::IllFormedEvent =>
                "the event changes nothing, gives rights or a new stock only in part, or names its own stock as the new one",
            Refusal::SameAccount => "buyer and seller are one account",
            Refusal::DeadlineOutOfOrder => "the deadline lies on the wrong side of the day",
            Refusal::NoReferencePrice =>
                "the price is not above the cash, or its reference price is no price",
            Refusal::UnknownMark => "the record's mark is unknown",
            Refusal::CutShort => "the journal ends within a record",
            Refusal::UnknownBook => "the record names no book",
            Refusal::DayPassed => "the day is before the book's day",
            Refusal::NoLine => "no live line has that name, or none is taken in",
            Refusal::NameTaken => "a live line has that name",
            Refusal::PrefixConflict => "a prefix would have two stocks, or a stock two prefixes",
            Refusal::LinesFull => "all 48 places hold live lines",
            Refusal::AccountNotOpen => "the account is not open",
            Refusal::AccountOpen => "the account is open already",
            Refusal::AccountsFull => "all 64 accounts are open",
            Refusal::WrongSideOfExpiry => "the day lies on the wrong side of the expiry",
            Refusal::LapsedLine => "a live line of the stock expired before the day",
            Refusal::LevelPastNine => "the code would pass its last letter",
            Refusal::LotOutsideLimits =>
                "a lot would have no shares, more than the largest lot, or too much cash",
            Refusal::ClaimInTheWay => "a claim of the line stands in the way",
            Refusal::NoClaimToFix => "there is no claim to fix",
            Refusal::ClaimNotFixed => "the line's claim should have been fixed before its expiry",
            Refusal::LotsPastLimit =>
                "an account would have more than 4,000 lots of a line, bought or sold",
            Refusal::EquityPastLimit => "an equity would pass its limit",
        }
    }
}

impl fmt::Display for Refusal {
    fn fmt<W: fmt::Write>(&self, f: &mut fmt::Formatter<W>) -> fmt::Result {
        f.write_str(self.words())
    }
}
