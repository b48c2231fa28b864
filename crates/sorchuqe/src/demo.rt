//! A real case from beginning to end, told as a story: two books, run from their lists of calls.
use crate::accounts;
use crate::amounts::price;
use crate::calls::{Happening, IN_FUTURES, IN_OPTIONS};
use crate::fault::Fault;
use crate::steps::{CLOSING, Lines, Made, OPENING, STEPS, Step};
use book::book::Book;
use book::call::Call;
use ledger::{refusals, run};
use notation::Date;
use std::alloc::Global;
use std::fmt::Write;
use terms::family::Family;
use terms::futures::Futures;
use terms::options::Options;

/// The two books.
#[derive(Drop)]
pub(crate) struct Books {
    pub(crate) options: Book<Options>,
    pub(crate) futures: Book<Futures>,
}

impl Books {
    fn after(made: Made) -> Books {
        Books {
            options: run::<Options>(IN_OPTIONS.get(..made.options).unwrap_or(&[])),
            futures: run::<Futures>(IN_FUTURES.get(..made.futures).unwrap_or(&[])),
        }
    }
}

/// The steps, each with the books before and after it. (Not inlined: its books would stand on the stack of every
/// command.)
#[inline(never)]
pub(crate) fn story(heap: Global) -> Result<String, Fault> {
    all_accepted::<Options>(heap, &IN_OPTIONS)?;
    all_accepted::<Futures>(heap, &IN_FUTURES)?;
    let mut out = String::from_str(heap, OPENING)?;
    let mut before = Books::after(Made {
        options: 0,
        futures: 0,
    });
    for step in STEPS {
        let after = Books::after(step.made);
        tell(heap, &mut out, &step, &before, &after)?;
        before = after;
    }
    out.push_str(CLOSING)?;
    Ok(out)
}

// The first refusal, if there is one, is a fault.
fn all_accepted<F: Family>(heap: Global, calls: &[Call]) -> Result<(), Fault> {
    let answers = refusals::<F>(heap, calls)?;
    match answers.iter().find_map(|answer| *answer) {
        Some(refusal) => Err(Fault::Refused(refusal)),
        None => Ok(()),
    }
}

fn tell(
    heap: Global,
    out: &mut String,
    step: &Step,
    before: &Books,
    after: &Books,
) -> Result<(), Fault> {
    let mut words = step.what.lines();
    let (date, first) = (Date::from_day(step.day), words.next().unwrap_or(""));
    writeln!(out, "{date}  {first}")?;
    for line in words {
        writeln!(out, "            {line}")?;
    }
    if let Lines::Adjusted(happening) = &step.lines {
        tell_reference(out, happening)?;
    }
    out.push('\n')?;
    step.lines.tell(heap, out, before, after)?;
    accounts::table(heap, out, after)
}

fn tell_reference(out: &mut String, happening: &Happening) -> Result<(), Fault> {
    let (old, reference) = (price(happening.price), price(happening.reference()?));
    writeln!(
        out,
        "            A price of {old} has the reference price {reference}."
    )?;
    Ok(())
}
