use super::*;
use std::test::Fail;
use terms::futures::Futures;

const CALLS: [Call; 4] = [
    Call::Opening {
        day: 8_201,
        account: 1,
    },
    Call::Opening {
        day: 8_202,
        account: 1,
    }, // the account is open
    Call::Opening {
        day: 8_200,
        account: 2,
    }, // the day has passed
    Call::Opening {
        day: 8_203,
        account: 2,
    },
];

const GIVEN: [Option<Refusal>; 4] = [
    None,
    Some(Refusal::AccountOpen),
    Some(Refusal::DayPassed),
    None,
];

#[test]
fn the_calls_are_made(rt: HostRuntime) {
    let book = run::<Futures>(&CALLS);
    assert_eq!(rt; book.table.day, 8_203);
    assert_eq!(rt; book.table.count, 2);
    assert_eq!(rt; book.equity(1), Ok(0));
    assert_eq!(rt; book.equity(3), Err(Refusal::AccountNotOpen));
}

#[test]
fn refusals_are_noted_as_far_as_there_is_room(rt: HostRuntime) {
    let unwritten = Some(Refusal::Malformed);
    let mut longer = [unwritten; 5];
    let book = run_noted::<Futures>(&CALLS, &mut longer);
    assert_eq!(rt; book.table.count, 2);
    assert_eq!(rt; &longer[..4], GIVEN.as_slice());
    assert_eq!(rt; longer[4], unwritten);
    let mut shorter = [unwritten; 2];
    let book = run_noted::<Futures>(&CALLS, &mut shorter);
    assert_eq!(rt; book.table.count, 2);
    assert_eq!(rt; shorter.as_slice(), &GIVEN[..2]);
}

#[test]
fn refusals_are_handed_back(rt: HostRuntime) -> Result<(), Fail> {
    let given = refusals::<Futures>(rt.alloc(), &CALLS)?;
    assert_eq!(rt; given.as_slice(), GIVEN.as_slice());
    Ok(())
}
