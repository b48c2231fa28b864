//! The accounts of the demo's two books: their lots in each live line, their equities, and the sums.
use crate::amounts::{Equity, Label};
use crate::demo::Books;
use crate::fault::Fault;
use book::table::{Account, PLACES, Place};
use std::alloc::Global;
use std::fmt::Write;
use terms::family::Family;
use terms::futures::Futures;
use terms::options::Options;

const NOBODY: Account = Account {
    number: 0,
    equity: 0,
    lots: [0; PLACES],
};

/// The accounts in their order, which is one in both books, and their sums.
pub(crate) fn table(heap: Global, out: &mut String, books: &Books) -> Result<(), Fault> {
    let (options, futures) = (&books.options.table, &books.futures.table);
    out.push_str("  account")?;
    head::<Options>(heap, out, &options.lines, "in options")?;
    head::<Futures>(heap, out, &futures.lines, "in futures")?;
    out.push('\n')?;
    let accounts = options.accounts.iter().zip(&futures.accounts);
    for (in_options, in_futures) in accounts.take(options.count) {
        let number = in_options.number;
        write!(out, "  {number:<7}")?;
        row(heap, out, &options.lines, in_options)?;
        row(heap, out, &futures.lines, in_futures)?;
        out.push('\n')?;
    }
    out.push_str("  sum    ")?;
    row(heap, out, &options.lines, &sum(&options.accounts))?;
    row(heap, out, &futures.lines, &sum(&futures.accounts))?;
    out.push_str("\n\n")?;
    Ok(())
}

// The live lines, by code and month, and the column of the equities.
fn head<F: Family>(
    heap: Global,
    out: &mut String,
    lines: &[Place],
    equities: &str,
) -> Result<(), Fault> {
    for place in lines {
        if let Place::Taken(line) = place {
            let label = Label::of::<F>(&line.terms.series).to_string(heap)?;
            write!(out, "{label:>8}")?;
        }
    }
    write!(out, "{equities:>13}")?;
    Ok(())
}

// An account's lots in the live lines, and its equity.
fn row(heap: Global, out: &mut String, lines: &[Place], account: &Account) -> Result<(), Fault> {
    for (place, lots) in lines.iter().zip(&account.lots) {
        if let Place::Taken(_) = place {
            write!(out, "{lots:>8}")?;
        }
    }
    // A text, since a column pads what is one.
    let equity = Equity(account.equity).to_string(heap)?;
    write!(out, "{equity:>13}")?;
    Ok(())
}

// All accounts as one.
fn sum(accounts: &[Account]) -> Account {
    let mut all = NOBODY;
    for account in accounts {
        all.equity = all.equity.saturating_add(account.equity);
        for (sum, lots) in all.lots.iter_mut().zip(&account.lots) {
            *sum = sum.saturating_add(*lots);
        }
    }
    all
}
