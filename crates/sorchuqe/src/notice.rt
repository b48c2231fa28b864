//! What the exchange's notice would say of a line.
use crate::amounts::{ClaimAfter, CodeText, Entry, LotCash, price, shares};
use crate::fault::Fault;
use crate::request::{Book, Request};
use std::alloc::Global;
use std::fmt;
use std::fmt::Write;
use terms::adjust::Adjusted;
use terms::code::Name;
use terms::event::Event;
use terms::family::Family;
use terms::futures::Futures;
use terms::options::Options;
use terms::reference::reference_price;
use terms::refusal::Refusal;
use terms::right::Right;
use terms::terms::Terms;
use terms::units::{Cents, LAST_DAY};

/// A line before and after an event, and a price with its reference price.
#[derive(Clone, Copy)]
struct Outcome {
    before: Terms,
    after: Adjusted,
    prices: Option<(Cents, Cents)>,
}

pub(crate) fn notice(heap: Global, request: &Request) -> Result<String, Fault> {
    match request.book {
        Book::Futures => written::<Futures>(
            heap,
            request,
            &decided::<Futures>(request, Right::Without, 0)?,
        ),
        Book::Options => written::<Options>(
            heap,
            request,
            &decided::<Options>(request, Right::Call, 1)?,
        ),
    }
}

// An event does not depend on a line's expiry, right or strike: any that fit the family will do.
fn decided<F: Family>(request: &Request, right: Right, strike: Cents) -> Result<Outcome, Refusal> {
    let event = request.event;
    let name = Name {
        code: request.code,
        expiry: LAST_DAY,
        right: u8::from(right),
        strike,
    };
    let before = Terms {
        series: name.read::<F>()?,
        stock: event.stock,
        units: request.units,
        strike_lot: request.units,
        cash: request.cash,
        claim: request.claim,
    };
    let after = before.adjust::<F>(request.day, &event);
    let prices = referred(request.price, &event);
    match (after, prices) {
        (Ok(after), Ok(prices)) => Ok(Outcome {
            before,
            after,
            prices,
        }),
        (Err(refusal), Ok(_)) | (Ok(_), Err(refusal)) => Err(refusal),
        // Where two refusals fit, the smaller number is given.
        (Err(a), Err(b)) => Err(a.min(b)),
    }
}

fn referred(price: Option<Cents>, event: &Event) -> Result<Option<(Cents, Cents)>, Refusal> {
    let Some(price) = price else {
        return Ok(None);
    };
    let reference = reference_price(price, event.cash, event.ratio)?;
    Ok(Some((price, reference)))
}

fn written<F: Family>(heap: Global, request: &Request, outcome: &Outcome) -> Result<String, Fault> {
    let (before, after) = (&outcome.before, &outcome.after.terms);
    let mut out = String::new(heap);
    row(
        &mut out,
        "code",
        CodeText::of::<F>(&before.series),
        CodeText::of::<F>(&after.series),
    )?;
    row(
        &mut out,
        "shares in a lot",
        shares(before.units),
        shares(after.units),
    )?;
    row(
        &mut out,
        "cash in the lot",
        LotCash(before.cash),
        LotCash(after.cash),
    )?;
    let entry = Entry(outcome.after.booked);
    writeln!(out, "entry             {entry}")?;
    let claim = ClaimAfter {
        event: request.event,
        claim: after.claim,
    };
    writeln!(out, "claim             {claim}")?;
    if let Some((old, reference)) = outcome.prices {
        row(&mut out, "reference price", price(old), price(reference))?;
    }
    Ok(out)
}

// What a part of the contract was, and what it becomes.
fn row<T: fmt::Display + PartialEq + Drop>(
    out: &mut String,
    label: &str,
    before: T,
    after: T,
) -> Result<(), Fault> {
    if before == after {
        writeln!(out, "{label:<16}  {before}, as before")?;
    } else {
        writeln!(out, "{label:<16}  {before} becomes {after}")?;
    }
    Ok(())
}
