//! What `adjust` is asked, read from its words.
use crate::fault::{Fault, usage};
use notation::{Decimal, Misread, read_date, read_decimal};
use std::alloc::Global;
use std::fmt;
use terms::claim::Claim;
use terms::code::{Code, Prefix};
use terms::event::{Event, Rights, Successor};
use terms::futures::Futures;
use terms::options::Options;
use terms::refusal::Refusal;
use terms::units::{
    Cents, Day, Dollars, LARGEST_CASH, LARGEST_LOT_CASH, LARGEST_PRICE, LARGEST_RATE,
    LARGEST_RATIO, LARGEST_UNITS, LAST_DAY, ONE, ShareUnits,
};

const HELP: &str = "adjust --help";

/// (As that of the tables in `cases`; neither crate rests on the other.)
#[derive(Clone, Copy)]
pub enum Book {
    Futures,
    Options,
}

/// A line, the event that it meets, and a price.
#[derive(Clone, Copy)]
pub struct Request {
    pub book: Book,
    pub code: Code,
    pub units: ShareUnits,
    pub cash: Dollars,
    pub claim: Claim,
    pub day: Day,
    pub price: Option<Cents>,
    pub event: Event,
}

/// To be filled in from the options: a part that is not given is 0, as in a call.
pub(crate) const NO_EVENT: Event = Event {
    stock: 1,
    cash: 0,
    ratio: ONE,
    rights: Rights::NONE,
    successor: Successor::NONE,
};

/// How an amount is written: its decimals, and the least and the most that it may be. (The constants below are
/// widened by `as`, since no function is called in a constant.)
#[derive(Clone, Copy)]
struct Unit {
    places: u8,
    least: u64,
    most: u64,
}

const SHARES: Unit = Unit {
    places: 4,
    least: 1,
    most: LARGEST_UNITS as u64,
};

const PRICE: Unit = Unit {
    places: 2,
    least: 1,
    most: LARGEST_PRICE as u64,
};

const CASH: Unit = Unit {
    places: 6,
    least: 0,
    most: LARGEST_CASH as u64,
};

const RATIO: Unit = Unit {
    places: 9,
    least: 1,
    most: LARGEST_RATIO,
};

/// A rate is read to 18 decimals and kept to nine.
const RATE: Unit = Unit {
    places: 18,
    least: 0,
    most: LARGEST_RATE * DROPPED,
};

const DROPPED: u64 = 1_000_000_000;

const DOLLARS: Unit = Unit {
    places: 0,
    least: 0,
    most: LARGEST_LOT_CASH as u64,
};

const NUMBER: Unit = Unit {
    places: 0,
    least: 1,
    most: u32::MAX as u64,
};

/// Reads the words; codes first, since a malformed one is refused before anything else.
pub(crate) fn read(heap: Global, words: &[&str]) -> Result<Request, Fault> {
    let [family, code, shares, options @ ..] = words else {
        return usage(
            heap,
            HELP,
            "adjust wants a family, a code and the shares of a lot",
        );
    };
    let book = read_book(heap, family)?;
    let code = read_code(book, code)?;
    let prefix = read_new_prefix(options)?;
    let shares = Given {
        option: "SHARES",
        value: shares,
    };
    let mut request = Request {
        book,
        code,
        units: shares.small(heap, SHARES)?,
        cash: 0,
        claim: Claim::Absent,
        day: 0,
        price: None,
        event: Event {
            successor: Successor { stock: 0, prefix },
            ..NO_EVENT
        },
    };
    request.set_all(heap, options)?;
    Ok(request)
}

impl Request {
    // Each option with its value, in their order. The words stay as they are given: codes and repeats are
    // looked for before any value is read.
    fn set_all(&mut self, heap: Global, options: &[&str]) -> Result<(), Fault> {
        for pair in options.chunks(2) {
            match pair {
                [option, _] if times(options, option) > 1 => {
                    return usage(heap, HELP, format_args!("{option} is given twice"));
                }
                [option, value] => self.set(heap, Given { option, value })?,
                [option] => return usage(heap, HELP, format_args!("{option} is without its value")),
                _ => {}
            }
        }
        Ok(())
    }

    fn set(&mut self, heap: Global, given: Given) -> Result<(), Fault> {
        match given.option {
            "--price" => self.price = Some(given.small(heap, PRICE)?),
            "--lot-cash" => self.cash = given.small(heap, DOLLARS)?,
            "--claim" => self.claim = read_claim(heap, given.value)?,
            "--day" => self.day = given.day(heap)?,
            "--cash" => self.event.cash = given.small(heap, CASH)?,
            "--ratio" => self.event.ratio = given.amount(heap, RATIO)?,
            "--stock" => self.event.stock = given.small(heap, NUMBER)?,
            _ => self.set_part(heap, given)?,
        }
        Ok(())
    }

    // The optional parts of an event.
    fn set_part(&mut self, heap: Global, given: Given) -> Result<(), Fault> {
        match given.option {
            "--rate" => self.event.rights.rate = given.amount(heap, RATE)? / DROPPED,
            "--at" => self.event.rights.price = given.small(heap, PRICE)?,
            "--until" => self.event.rights.deadline = given.day(heap)?,
            "--into" => self.event.successor.stock = given.small(heap, NUMBER)?,
            "--prefix" => {}
            option => return usage(heap, HELP, format_args!("there is no option '{option}'")),
        }
        Ok(())
    }
}

/// An option and its value; SHARES stands for the word that has no option.
#[derive(Clone, Copy)]
struct Given<'a> {
    option: &'a str,
    value: &'a str,
}

impl fmt::Display for Given<'_> {
    fn fmt<W: fmt::Write>(&self, f: &mut fmt::Formatter<W>) -> fmt::Result {
        let Given { option, value } = *self;
        write!(f, "{option} {value}")
    }
}

impl Given<'_> {
    fn day(self, heap: Global) -> Result<Day, Fault> {
        match read_date(self.value.as_bytes()) {
            Some(day) => Ok(day),
            None => usage(
                heap,
                HELP,
                format_args!("{self}: not a date from 2000 on, such as 2022-08-03"),
            ),
        }
    }

    fn small(self, heap: Global, unit: Unit) -> Result<u32, Fault> {
        let amount = self.amount(heap, unit)?;
        Ok(u32::try_from(amount).map_err(|_| Refusal::OutsideUnits)?)
    }

    fn amount(self, heap: Global, unit: Unit) -> Result<u64, Fault> {
        match read_decimal(self.value.as_bytes(), unit.places) {
            Ok(amount) if unit.has(amount) => Ok(amount),
            Ok(_) | Err(Misread::TooLarge) => {
                let (least, most) = (unit.shown(unit.least), unit.shown(unit.most));
                Err(Fault::Amount(format!(in heap; "{self} is not from {least} to {most}")?))
            }
            Err(Misread::TooManyDecimals) => {
                let places = unit.places;
                Err(Fault::Amount(format!(in heap; "{self} has more than {places} decimals")?))
            }
            Err(Misread::NotANumber) => usage(heap, HELP, format_args!("{self}: not a number")),
        }
    }
}

impl Unit {
    fn has(self, amount: u64) -> bool {
        (self.least..=self.most).contains(&amount)
    }

    fn shown(self, value: u64) -> Decimal {
        let full = Decimal {
            value,
            places: self.places,
        };
        full.trimmed()
    }
}

// How often an option is given. By pairs of words, as in `set_all`, and below too.
fn times(options: &[&str], option: &str) -> usize {
    options
        .chunks(2)
        .filter(|pair| matches!(pair, [other, ..] if *other == option))
        .count()
}

fn read_book(heap: Global, word: &str) -> Result<Book, Fault> {
    match word {
        "futures" => Ok(Book::Futures),
        "options" => Ok(Book::Options),
        _ => usage(heap, HELP, "the family is futures or options"),
    }
}

fn read_code(book: Book, word: &str) -> Result<Code, Refusal> {
    let [first, second, letter] = *word.as_bytes() else {
        return Err(Refusal::Malformed);
    };
    let code = Code {
        prefix: Prefix { first, second },
        letter,
    };
    let level = match book {
        Book::Futures => code.level::<Futures>(),
        Book::Options => code.level::<Options>(),
    };
    level.map(|_| code).ok_or(Refusal::Malformed)
}

// The prefix of a new stock, or none.
fn read_new_prefix(options: &[&str]) -> Result<Prefix, Refusal> {
    options
        .chunks(2)
        .find_map(|pair| match pair {
            ["--prefix", word] => Some(read_prefix(word)),
            _ => None,
        })
        .unwrap_or(Ok(Prefix::NONE))
}

fn read_prefix(word: &str) -> Result<Prefix, Refusal> {
    let [first, second] = *word.as_bytes() else {
        return Err(Refusal::Malformed);
    };
    let prefix = Prefix { first, second };
    if prefix.is_well_formed() {
        Ok(prefix)
    } else {
        Err(Refusal::Malformed)
    }
}

fn read_claim(heap: Global, word: &str) -> Result<Claim, Fault> {
    match word {
        "open" => Ok(Claim::Open {
            units: 0,
            price: 1,
            deadline: LAST_DAY,
        }),
        "fixed" => Ok(Claim::Fixed { dollars: 0 }),
        _ => usage(heap, HELP, "--claim is open or fixed"),
    }
}
