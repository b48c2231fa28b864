//! Scripts: steps for a book of either family, each with the answer that must come.
use book::book::Book;
use book::call::{Call, Done};
use book::table::{Place, Table};
use std::fmt::Debug;
use std::process::Abort;
use terms::claim::Claim;
use terms::code::{Code, Name, Prefix, Series};
use terms::event::{Event, Rights, Successor};
use terms::family::Family;
use terms::futures::Futures;
use terms::options::Options;
use terms::refusal::Refusal;
use terms::right::Right;
use terms::terms::Terms;

/// 2,000 shares.
pub(crate) const LOT: u32 = 20_000_000;

/// A step is accepted, or refused with this number: the rules give each refusal its number, and the tables hold
/// it to that.
pub(crate) type Answer = Result<(), u8>;

/// How a script's names are written in one family.
#[derive(Clone, Copy)]
pub(crate) struct Style {
    /// The letter of level 0.
    standard: u8,
    /// The letter of another level.
    adjusted: u8,
    /// A letter that the family has not.
    foreign: u8,
    /// A right and strike that fit.
    fit: (u8, u32),
    /// What that right's number stands for.
    right: Right,
    /// A right and strike that do not fit.
    misfit: (u8, u32),
}

pub(crate) const FUTURES: [Style; 4] = [
    Style {
        standard: b'F',
        adjusted: b'1',
        foreign: b'O',
        fit: (0, 0),
        right: Right::Without,
        misfit: (1, 5_000),
    },
    Style {
        standard: b'F',
        adjusted: b'9',
        foreign: b'A',
        fit: (0, 0),
        right: Right::Without,
        misfit: (0, 1),
    },
    Style {
        standard: b'F',
        adjusted: b'5',
        foreign: b'0',
        fit: (0, 0),
        right: Right::Without,
        misfit: (2, 0),
    },
    Style {
        standard: b'F',
        adjusted: b'2',
        foreign: b'f',
        fit: (0, 0),
        right: Right::Without,
        misfit: (3, 0),
    },
];

pub(crate) const OPTIONS: [Style; 5] = [
    Style {
        standard: b'O',
        adjusted: b'A',
        foreign: b'1',
        fit: (1, 5_000),
        right: Right::Call,
        misfit: (0, 0),
    },
    Style {
        standard: b'O',
        adjusted: b'I',
        foreign: b'J',
        fit: (2, 5_000),
        right: Right::Put,
        misfit: (0, 5_000),
    },
    Style {
        standard: b'O',
        adjusted: b'F',
        foreign: b'P',
        fit: (1, 1),
        right: Right::Call,
        misfit: (1, 0),
    },
    Style {
        standard: b'O',
        adjusted: b'B',
        foreign: b'0',
        fit: (2, 1_000_000),
        right: Right::Put,
        misfit: (2, 1_000_001),
    },
    Style {
        standard: b'O',
        adjusted: b'H',
        foreign: b'o',
        fit: (2, 5_001),
        right: Right::Put,
        misfit: (3, 5_000),
    },
];

/// A name: its prefix, followed by `0` for the standard letter, `1` for a letter of another level
/// or `x` for one that the family has not; then the expiry. (A letter and no enum, so that each row of a table stays a
/// line.)
#[derive(Clone, Copy)]
pub(crate) enum Label {
    Fit(&'static [u8; 3], u16),
    Misfit(&'static [u8; 3], u16),
    /// The prefix is followed by the digit of the level in futures and of that in options: they part
    /// where cash alone is paid.
    Level(&'static [u8; 4], u16),
}

/// Rate, subscription price and deadline. A part that is 0 is absent.
type Offer = (u64, u32, u16);

pub(crate) const NONE: Offer = (0, 0, 0);

/// A new stock and its prefix. A part that is 0 is absent.
type Heir = (u32, &'static [u8; 2]);

pub(crate) const NO_PREFIX: &[u8; 2] = b"\0\0";

pub(crate) const STAYS: Heir = (0, NO_PREFIX);

/// An event: stock, cash in millionths, new shares for one in billionths, rights, new stock.
#[derive(Clone, Copy)]
pub(crate) struct Does(
    pub(crate) u32,
    pub(crate) u32,
    pub(crate) u64,
    pub(crate) Offer,
    pub(crate) Heir,
);

/// A call with its day and its arguments, or a question with its arguments and its answer.
#[derive(Clone, Copy)]
pub(crate) enum Step {
    /// Day, account.
    Opens(u16, u32),
    /// Day, name, stock, units, opening price.
    Lists(u16, Label, u32, u32, u32),
    /// Day, name, buyer, seller, price, lots.
    Trades(u16, Label, u32, u32, u32, u16),
    /// Day, name, price.
    Marks(u16, Label, u32),
    /// Day, event.
    Adjusts(u16, Does),
    /// Day, event, lines that are taken in.
    TakesIn(u16, Does, usize),
    /// Day, stock, payment deadline, close.
    Fixes(u16, u32, u16, u32),
    /// Day, name, final price, close.
    Expires(u16, Label, u32, u32),
    /// Name, stock, units.
    Terms(Label, u32, u32),
    /// Name, stock, units, strike lot, dollars (options keep them in the lot, futures do not), claim.
    Holds(Label, u32, u32, u32, u32, Claim),
    /// Account, name, lots.
    Lots(u32, Label, i32),
    /// Account, equity in micros.
    Equity(u32, i64),
    /// Account, equity in micros: in futures, with calls, with puts.
    Micros(u32, [i64; 3]),
    /// Account, equity in dollars: in futures, with calls, with puts.
    Dollars(u32, [i64; 3]),
    /// Place, the name of the line in it.
    Stands(usize, Label),
    /// A place that is free, and in which nobody has lots.
    Bare(usize),
    /// The book's day.
    Day(u16),
}

impl Does {
    pub(crate) fn event(self) -> Event {
        let Does(stock, cash, ratio, (rate, price, deadline), (heir, &[first, second])) = self;
        Event {
            stock,
            cash,
            ratio,
            rights: Rights {
                rate,
                price,
                deadline,
            },
            successor: Successor {
                stock: heir,
                prefix: Prefix { first, second },
            },
        }
    }
}

impl Label {
    fn name(self, style: &Style) -> Name {
        let (first, second, letter, expiry) = match self {
            Label::Fit(&[first, second, kind], expiry)
            | Label::Misfit(&[first, second, kind], expiry) => (
                first,
                second,
                style.letter_for(kind),
                expiry,
            ),
            Label::Level(&[first, second, ..], expiry) => (
                first,
                second,
                style.letter_of(self.level(style)),
                expiry,
            ),
        };
        let (right, strike) = match self {
            Label::Misfit(..) => style.misfit,
            Label::Fit(..) | Label::Level(..) => style.fit,
        };
        Name {
            code: Code {
                prefix: Prefix { first, second },
                letter,
            },
            expiry,
            right,
            strike,
        }
    }

    // The level of a line: 0 where it is named as it was listed.
    fn level(self, style: &Style) -> u8 {
        let digit = match self {
            Label::Level(&[_, _, futures, options], _) => style.one_of([futures, options, options]),
            Label::Fit(..) | Label::Misfit(..) => b'0',
        };
        digit.wrapping_sub(b'0')
    }

    // The name as a line bears it.
    fn series(self, style: &Style) -> Series {
        let name = self.name(style);
        Series {
            prefix: name.code.prefix,
            level: self.level(style),
            expiry: name.expiry,
            right: style.right,
            strike: name.strike,
        }
    }
}

impl Style {
    // What holds in futures, with calls or with puts.
    fn one_of<T: Copy>(&self, [futures, calls, puts]: [T; 3]) -> T {
        match self.right {
            Right::Without => futures,
            Right::Call => calls,
            Right::Put => puts,
        }
    }

    fn letter_for(&self, kind: u8) -> u8 {
        match kind {
            b'0' => self.standard,
            b'1' => self.adjusted,
            _ => self.foreign,
        }
    }

    fn letter_of(&self, level: u8) -> u8 {
        let letters = self.one_of([b"F123456789", b"OABCDEFGHI", b"OABCDEFGHI"]);
        letters
            .get(usize::from(level))
            .copied()
            .unwrap_or(self.foreign)
    }
}

impl Step {
    // The call that a step makes, if it makes one.
    pub(crate) fn call(self, style: &Style) -> Option<Call> {
        match self {
            Step::Opens(day, account) => Some(Call::Opening { day, account }),
            Step::Adjusts(day, does) | Step::TakesIn(day, does, _) => Some(Call::Adjustment {
                day,
                event: does.event(),
            }),
            Step::Fixes(day, stock, deadline, close) => Some(Call::Fixing {
                day,
                stock,
                deadline,
                close,
            }),
            _ => self.call_by_name(style),
        }
    }

    // The call on a line, if it makes one.
    fn call_by_name(self, style: &Style) -> Option<Call> {
        match self {
            Step::Lists(day, label, stock, units, price) => Some(Call::Listing {
                day,
                name: label.name(style),
                stock,
                units,
                price,
            }),
            Step::Trades(day, label, buyer, seller, price, lots) => Some(Call::Trade {
                day,
                name: label.name(style),
                buyer,
                seller,
                price,
                lots,
            }),
            Step::Marks(day, label, price) => Some(Call::Mark {
                day,
                name: label.name(style),
                price,
            }),
            Step::Expires(day, label, price, close) => Some(Call::Expiry {
                day,
                name: label.name(style),
                price,
                close,
            }),
            _ => None,
        }
    }

    // Looks at the answer of the call that a step has made.
    fn check_done(self, rt: &impl Abort, done: Done) {
        match self {
            Step::TakesIn(_, _, lines) => assert_eq!(rt; done, Done::TookIn { lines }),
            Step::Adjusts(..) => assert!(rt; matches!(done, Done::TookIn { .. })),
            _ => assert_eq!(rt; done, Done::Made),
        }
    }

    // The terms that a line must have.
    fn terms(self, style: &Style) -> Option<Terms> {
        match self {
            Step::Terms(label, stock, units) => Some(Terms {
                series: label.series(style),
                stock,
                units,
                strike_lot: units,
                cash: 0,
                claim: Claim::Absent,
            }),
            Step::Holds(label, stock, units, strike_lot, dollars, claim) => Some(Terms {
                series: label.series(style),
                stock,
                units,
                strike_lot,
                cash: style.one_of([0, dollars, dollars]),
                claim,
            }),
            _ => None,
        }
    }
}

// All equities together. 64 of them cannot wrap.
fn total(table: &Table) -> i128 {
    let equities = table
        .accounts
        .iter()
        .map(|account| i128::from(account.equity));
    equities.fold(0, i128::wrapping_add)
}

// Makes a call. One that is refused must leave all as it was.
fn make<F: Family>(rt: &impl Abort, book: &mut Book<F>, call: Call) -> Result<Done, u8> {
    let before = book.table;
    let answer = book.carry_out(call).map_err(Refusal::number);
    if answer.is_err() {
        assert_eq!(rt; book.table, before);
    }
    answer
}

// Looks at the answer to a question, if there is one.
fn check<T: PartialEq + Debug + Drop>(
    rt: &impl Abort,
    answer: Result<T, Refusal>,
    expected: T,
) -> Answer {
    let found = answer.map_err(Refusal::number)?;
    assert_eq!(rt; found, expected);
    Ok(())
}

// The name of the line in a place.
fn standing(table: &Table, place: usize) -> Option<Series> {
    match table.lines.get(place) {
        Some(Place::Taken(line)) => Some(line.terms.series),
        _ => None,
    }
}

// Whether a place is free, and nobody has lots in it.
fn is_bare(table: &Table, place: usize) -> bool {
    let free = matches!(table.lines.get(place), Some(Place::Free));
    free && table
        .accounts
        .iter()
        .all(|row| row.lots.get(place) == Some(&0))
}

fn ask<F: Family>(rt: &impl Abort, book: &Book<F>, style: &Style, step: Step) -> Answer {
    match step {
        Step::Terms(label, ..) | Step::Holds(label, ..) => check(
            rt,
            book.terms(label.name(style)).map(Some),
            step.terms(style),
        ),
        Step::Lots(account, label, lots) => check(rt, book.lots(account, label.name(style)), lots),
        Step::Equity(account, equity) => check(rt, book.equity(account), equity),
        Step::Micros(account, equities) => check(rt, book.equity(account), style.one_of(equities)),
        Step::Dollars(account, equities) => {
            let equity = style.one_of(equities).wrapping_mul(1_000_000);
            check(rt, book.equity(account), equity)
        }
        Step::Day(day) => check(rt, Ok(book.table.day), day),
        Step::Stands(place, label) => check(
            rt,
            Ok(standing(&book.table, place)),
            Some(label.series(style)),
        ),
        Step::Bare(place) => check(rt, Ok(is_bare(&book.table, place)), true),
        // A step that no call and no question stands for: no refusal has this number.
        _ => Err(0),
    }
}

fn take<F: Family>(rt: &impl Abort, book: &mut Book<F>, style: &Style, step: Step) -> Answer {
    match step.call(style) {
        Some(call) => {
            let done = make(rt, book, call)?;
            step.check_done(rt, done);
            Ok(())
        }
        None => ask(rt, book, style, step),
    }
}

/// Goes through a script. At its end the equities must add up to 0.
pub(crate) fn follow<F: Family>(
    rt: &impl Abort,
    book: &mut Book<F>,
    style: &Style,
    script: &[(Step, Answer)],
) {
    // With the index, which only the message says.
    for (i, &(step, expected)) in script.iter().enumerate() {
        assert_eq!(rt; take(rt, book, style, step), expected, "step {i}");
    }
    assert_eq!(rt; total(&book.table), 0);
}

/// Goes through a script with an empty book.
pub(crate) fn play<F: Family>(rt: &impl Abort, style: &Style, script: &[(Step, Answer)]) {
    let mut book = Book::<F>::new();
    follow(rt, &mut book, style, script);
}

/// Goes through a script with empty books: of futures, of calls at 50.00 and of puts at 50.00.
pub(crate) fn play_in_all(rt: &impl Abort, script: &[(Step, Answer)]) {
    play::<Futures>(rt, &FUTURES[0], script);
    play::<Options>(rt, &OPTIONS[0], script);
    play::<Options>(rt, &OPTIONS[1], script);
}

/// Goes through a beginning and then through what follows it, with empty books of all three.
pub(crate) fn play_after_in_all(
    rt: &impl Abort,
    beginning: &[(Step, Answer)],
    script: &[(Step, Answer)],
) {
    play_after::<Futures>(rt, &FUTURES[0], beginning, script);
    play_after::<Options>(rt, &OPTIONS[0], beginning, script);
    play_after::<Options>(rt, &OPTIONS[1], beginning, script);
}

pub(crate) fn play_after<F: Family>(
    rt: &impl Abort,
    style: &Style,
    beginning: &[(Step, Answer)],
    script: &[(Step, Answer)],
) {
    let mut book = Book::<F>::new();
    follow(rt, &mut book, style, beginning);
    follow(rt, &mut book, style, script);
}

/// Goes through a beginning and then takes one step of many, with empty books for each of them.
pub(crate) fn play_each_in_all(
    rt: &impl Abort,
    beginning: &[(Step, Answer)],
    steps: &[(Step, Answer)],
) {
    for step in steps {
        play_after_in_all(rt, beginning, &[*step]);
    }
}
