//! Runs over one list of all seven calls, some of them refused: the book, the refusals, and a book on
//! which the same calls are made one by one.
use crate::script::Label::Level;
use crate::script::Step::{
    Adjusts, Bare, Day, Dollars, Expires, Fixes, Lists, Lots, Marks, Opens, Stands, TakesIn, Terms,
    Trades,
};
use crate::script::{Answer, Does, FUTURES, LOT, Label, NONE, OPTIONS, STAYS, Step, Style, follow};
use book::book::Book;
use book::call::Call;
use ledger::{refusals, run, run_noted};
use std::alloc::{AllocError, Global};
use std::process::Abort;
use std::test::Fail;
use terms::family::Family;
use terms::futures::Futures;
use terms::options::Options;
use terms::refusal::Refusal;
use terms::units::ONE;

/// The exchange's notice of June 2022, with a subscription price of 30.00.
const NOTICE: Does = Does(1605, 1_600_000, ONE, (69_943_664, 3_000, 8_250), STAYS);

const JULY: Label = Level(b"CS00", 8_236);

const JULY_LATER: Label = Level(b"CS11", 8_236);

const AUGUST: Label = Level(b"CS00", 8_264);

const AUGUST_LATER: Label = Level(b"CS11", 8_264);

const COUNT: usize = 33;

static CALLS: [(Step, Answer); COUNT] = [
    (Opens(8_201, 101), Ok(())),
    (Opens(8_201, 101), Err(17)),
    (Opens(8_200, 102), Err(11)),
    (Opens(8_201, 102), Ok(())),
    (Lists(8_201, JULY_LATER, 1605, LOT, 4_000), Err(1)),
    (Lists(8_201, JULY, 1605, LOT, 4_000), Ok(())),
    (Lists(8_201, AUGUST, 1605, LOT, 4_000), Ok(())),
    (Lists(8_201, AUGUST, 1605, LOT, 4_000), Err(13)),
    (
        Lists(8_201, Level(b"CT00", 8_264), 1605, LOT, 4_000),
        Err(14),
    ),
    // 3 x (80,000 - 82,000) dollars, and 2,000 for the lot that is sold.
    (Trades(8_206, JULY, 101, 102, 4_100, 3), Ok(())),
    (Trades(8_206, JULY, 101, 101, 4_100, 3), Err(5)),
    (Trades(8_206, AUGUST, 102, 101, 4_100, 1), Ok(())),
    (Trades(8_206, AUGUST, 103, 101, 4_100, 1), Err(16)),
    (Trades(8_206, JULY, 101, 102, 4_100, 3_998), Err(26)),
    // 3 x (84,000 - 80,000) dollars.
    (Marks(8_206, JULY, 4_200), Ok(())),
    (Marks(8_205, JULY, 4_300), Err(11)),
    (Adjusts(8_207, Does(1605, 0, ONE, NONE, STAYS)), Err(4)),
    (Adjusts(8_207, Does(1606, 1, ONE, NONE, STAYS)), Err(12)),
    // 3 x 3,200 - 3,200 dollars.
    (TakesIn(8_207, NOTICE, 2), Ok(())),
    (Adjusts(8_207, NOTICE), Err(23)),
    (Lists(8_207, JULY, 1605, LOT, 4_050), Ok(())),
    (Fixes(8_236, 1605, 8_250, 3_920), Err(6)),
    // 9.20 x 139.8873 = 1,286.96: 3 x (78,000 + 1,286 - 84,000).
    (Expires(8_236, JULY_LATER, 3_900, 3_920), Ok(())),
    (Expires(8_236, JULY_LATER, 3_900, 3_920), Err(12)),
    (Expires(8_236, AUGUST_LATER, 3_900, 3_920), Err(19)),
    (Expires(8_264, AUGUST_LATER, 4_000, 4_000), Err(25)),
    // 10.00 x 139.8873 = 1,398.87.
    (Fixes(8_250, 1605, 8_250, 4_000), Ok(())),
    (Fixes(8_250, 1605, 8_250, 4_000), Err(24)),
    (Lists(8_250, JULY, 1605, LOT, 4_000), Err(13)),
    // Sold: 80,000 + 1,398 - 80,000.
    (Expires(8_264, AUGUST_LATER, 4_000, 3_000), Ok(())),
    // The July line that is left has expired.
    (Adjusts(8_264, Does(1605, 1, ONE, NONE, STAYS)), Err(12)),
    (Marks(60_001, JULY, 4_000), Err(2)),
    (Opens(8_263, 103), Err(11)),
];

/// Futures: -4,000 + 12,000 + 6,400 - 14,142 - 1,398. Options: three premiums of 82,000 paid and one got,
/// and with puts 3 x (100,000 - 78,000 - 3,200 - 1,286) - (100,000 - 80,000 - 3,200 - 1,398).
static AFTER: [(Step, Answer); 11] = [
    (Dollars(101, [-1_140, -164_000, -126_860]), Ok(())),
    (Dollars(102, [1_140, 164_000, 126_860]), Ok(())),
    (Dollars(103, [0, 0, 0]), Err(16)),
    (Terms(JULY, 1605, LOT), Ok(())),
    (Lots(101, JULY, 0), Ok(())),
    (Terms(AUGUST, 1605, LOT), Err(12)),
    (Lots(101, AUGUST_LATER, 0), Err(12)),
    (Stands(2, JULY), Ok(())),
    (Bare(0), Ok(())),
    (Bare(1), Ok(())),
    (Day(8_264), Ok(())),
];

// The calls of the list.
fn calls(style: &Style) -> [Call; COUNT] {
    let mut calls = [Call::Opening { day: 0, account: 0 }; COUNT];
    for (slot, &(step, _)) in calls.iter_mut().zip(&CALLS) {
        if let Some(call) = step.call(style) {
            *slot = call;
        }
    }
    calls
}

// Whether the refusals are those of the list.
fn check_refusals(rt: &impl Abort, found: &[Option<Refusal>]) {
    for (i, (&refusal, &(_, expected))) in found.iter().zip(&CALLS).enumerate() {
        assert_eq!(rt; refusal.map(Refusal::number), expected.err(), "call {i}");
    }
}

fn compare<F: Family>(rt: &impl Abort, heap: Global, style: &Style) -> Result<(), AllocError> {
    let calls = calls(style);
    let mut one_by_one = Book::<F>::new();
    follow(rt, &mut one_by_one, style, &CALLS);
    let mut at_once = run::<F>(&calls);
    assert_eq!(rt; at_once.table, one_by_one.table);
    follow(rt, &mut at_once, style, &AFTER);

    let mut given = [Some(Refusal::UnknownMark); COUNT];
    let noted = run_noted::<F>(&calls, &mut given);
    assert_eq!(rt; noted.table, one_by_one.table);
    check_refusals(rt, &given);

    let listed = refusals::<F>(heap, &calls)?;
    assert_eq!(rt; listed.len(), COUNT);
    check_refusals(rt, &listed);
    Ok(())
}

#[test]
fn runs_make_the_calls_of_a_list(rt: HostRuntime) -> Result<(), Fail> {
    compare::<Futures>(&rt, rt.alloc(), &FUTURES[0])?;
    compare::<Options>(&rt, rt.alloc(), &OPTIONS[0])?;
    compare::<Options>(&rt, rt.alloc(), &OPTIONS[1])?;
    Ok(())
}

// The first calls of the list, however many.
fn stop_early<F: Family>(rt: &impl Abort, style: &Style) {
    let calls = calls(style);
    let mut one_by_one = Book::<F>::new();
    for (made, &(step, expected)) in CALLS.iter().enumerate() {
        let (before, _) = calls.split_at(made);
        let book = run::<F>(before);
        assert_eq!(rt; book.table, one_by_one.table);
        follow(rt, &mut one_by_one, style, &[(step, expected)]);
    }
}

#[test]
fn runs_may_stop_after_any_call(rt: HostRuntime) {
    stop_early::<Futures>(&rt, &FUTURES[0]);
    stop_early::<Options>(&rt, &OPTIONS[0]);
    stop_early::<Options>(&rt, &OPTIONS[1]);
}
