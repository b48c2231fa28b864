//! What the tables share: answers, and codes from their text.
use terms::code::{Code, Prefix};
use terms::refusal::Refusal;

/// Accepted, or refused with this number: the rules give each refusal its number, and the tables hold it
/// to that.
pub(crate) type Answer = Result<(), u8>;

pub(crate) fn answer<T: Drop>(judged: Result<T, Refusal>) -> Answer {
    judged.map(|_| ()).map_err(Refusal::number)
}

pub(crate) fn code_of(text: &[u8; 3]) -> Code {
    let [first, second, letter] = *text;
    Code {
        prefix: Prefix { first, second },
        letter,
    }
}
