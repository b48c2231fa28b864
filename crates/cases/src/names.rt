//! Names, as futures and as options read them.
use crate::answers::{Answer, answer, code_of};
use terms::code::Name;
use terms::futures::Futures;
use terms::options::Options;

/// A code, expiry, right and strike, and the answer in the futures book and in the options book. The right by
/// its number: a call may give one that is none, which is refused.
#[derive(Clone, Copy)]
struct Case(&'static [u8; 3], u16, u8, u32, Answer, Answer);

const CASES: [Case; 22] = [
    Case(b"CDF", 1, 0, 0, Ok(()), Err(3)),
    Case(b"CD9", 60_000, 0, 0, Ok(()), Err(1)),
    Case(b"CD9", 60_001, 0, 0, Err(2), Err(1)),
    Case(b"CD0", 1, 0, 0, Err(1), Err(1)),
    Case(b"CDO", 1, 1, 1, Err(1), Ok(())),
    Case(b"CDI", 1, 2, 1_000_000, Err(1), Ok(())),
    Case(b"CDJ", 1, 2, 1, Err(1), Err(1)),
    Case(b"CDF", 1, 2, 1, Err(3), Ok(())),
    Case(b"CDF", 1, 0, 1, Err(3), Err(3)),
    Case(b"CDF", 1, 1, 0, Err(3), Err(3)),
    Case(b"CDF", 1, 1, 1_000_001, Err(3), Err(3)),
    Case(b"CDF", 1, 3, 1, Err(3), Err(3)),
    Case(b"CDF", 1, 255, 0, Err(3), Err(3)),
    Case(b"cDF", 1, 0, 0, Err(1), Err(1)),
    Case(b"C@F", 1, 0, 0, Err(1), Err(1)),
    Case(b"C[F", 1, 0, 0, Err(1), Err(1)),
    Case(b"AZF", 1, 0, 0, Ok(()), Err(3)),
    Case(b"ZAF", 1, 0, 0, Ok(()), Err(3)),
    Case(b"CD\xff", 1, 0, 0, Err(1), Err(1)),
    // Several faults: the smallest number.
    Case(b"CDX", 60_001, 9, 9, Err(1), Err(1)),
    Case(b"CDF", 60_001, 9, 9, Err(2), Err(2)),
    Case(b"CDF", 60_000, 9, 9, Err(3), Err(3)),
];

#[test]
fn names(rt: HostRuntime) {
    for &Case(text, expiry, right, strike, in_futures, in_options) in &CASES {
        let name = Name {
            code: code_of(text),
            expiry,
            right,
            strike,
        };
        assert_eq!(rt; answer(name.read::<Futures>()), in_futures);
        assert_eq!(rt; answer(name.read::<Options>()), in_options);
    }
}
