//! The run over a list of calls, and the promises that hold after every such list.
#![tactic(auto)]

ghost use Rattle.rows.specs.Calls.{empty, run as run_of};
ghost use Rattle.ledger.specs.Agreement.{Balanced, Agrees, Answered, Orderly, ledger_of};
ghost use Rattle.ledger.specs.Asked.{Asked, RowsKept};
ghost use Rattle.ledger.specs.Worths.{WorthsKept};
ghost use Rattle.ledger.specs.Promises.{Promises};
ghost use Rattle.ledger.specs.Runs.{Noted, outcome_number, numbers_given};
ghost use Rattle.std.specs.Prelude.{◌≡◌, map, IfOk};

use book::book::Book;
use rows::call::Call;
use std::alloc::{AllocError, Global};
use terms::family::Family;
use terms::refusal::Refusal;

/// The calls one after the other on a new book. It allocates nothing, and has no other answer.
pub fn run<F: Family>(calls: &[Call]) -> Book<F>
    ensures ran { result.table ≡ run_of F.Family.answers empty calls.now }
    ensures balanced { Balanced result.table }
    ensures agrees { Agrees result.table (ledger_of F.Family.answers calls.now) }
    ensures answered { Answered result.table (ledger_of F.Family.answers calls.now) }
    ensures asked { Asked F.Family.answers result.table (ledger_of F.Family.answers calls.now) }
    ensures orderly { Orderly result.table }
    ensures rows { RowsKept result.table }
    ensures worth { WorthsKept F.Family.answers empty calls.now }
{
    run_noted(calls, &mut [])
}

/// Such a run, with each call's refusal noted in `given`, as far as it reaches.
pub fn run_noted<F: Family>(calls: &[Call], given: &mut [Option<Refusal>]) -> Book<F>
    ensures ran { result.table ≡ run_of F.Family.answers empty calls.now }
    ensures noted { Noted (numbers_given F.Family.answers empty calls.now) given.old given.new }
    ensures kept { Promises F.Family.answers calls.now result.table }
{
    let mut book = Book::<F>::new();
    for (i, call) in calls.iter().enumerate() {
        let refusal = book.make(*call).err();
        // By the index: `get_mut` leaves open what the slice holds afterwards, so the proof stays open.
        if i < given.len() {
            given[i] = refusal;
        }
    }
    book
}

/// Each call's refusal in such a run, none where it was accepted.
pub fn refusals<F: Family>(heap: Global, calls: &[Call]) -> Result<Vec<Option<Refusal>>, AllocError>
    ensures { IfOk result (λ v. map outcome_number v.items ≡ numbers_given F.Family.answers empty calls.now) }
{
    let mut given = vec![in heap; None; calls.len()]?;
    run_noted::<F>(calls, &mut given);
    Ok(given)
}

#[cfg(test)]
mod tests;
