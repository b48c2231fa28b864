//! The lines that a step of the demo changes, one to a row.
use crate::amounts::{Change, CodeText, MonthDay, money, price, shares, whole};
use crate::calls::Happening;
use crate::demo::Books;
use crate::fault::Fault;
use crate::steps::Lines;
use book::book::Book;
use book::table::Place;
use std::alloc::Global;
use std::fmt;
use std::fmt::Write;
use terms::claim::Claim;
use terms::code::Series;
use terms::family::Family;
use terms::refusal::Refusal;
use terms::right::Right;
use terms::terms::Terms;

/// A row: a line before and after a step, and what the last column says of it.
#[derive(Clone, Copy)]
struct Row {
    before: Terms,
    after: Terms,
    last: Last,
}

#[derive(Clone, Copy)]
enum Last {
    Listed(Series),
    Worth { before: u128, after: u128 },
    Claim(Claim),
    Expired(Series),
}

impl Lines {
    // What the last column has; none where no line changes.
    fn heading(&self) -> Option<&'static str> {
        match self {
            Lines::Unchanged => None,
            Lines::Listed | Lines::Expired => Some("contract"),
            Lines::Adjusted(_) => Some("worth of a lot"),
            Lines::Claims => Some("claim"),
        }
    }

    /// The table of the lines that the step changes, those of both books.
    pub(crate) fn tell(
        &self,
        heap: Global,
        out: &mut String,
        before: &Books,
        after: &Books,
    ) -> Result<(), Fault> {
        let Some(heading) = self.heading() else {
            return Ok(());
        };
        writeln!(
            out,
            "  code        expiry  shares          dollars         {heading}"
        )?;
        self.rows(heap, out, &before.options, &after.options)?;
        self.rows(heap, out, &before.futures, &after.futures)?;
        out.push('\n')?;
        Ok(())
    }

    // A row for each line of a book that is not what it was, or that the step's event takes in.
    fn rows<F: Family>(
        &self,
        heap: Global,
        out: &mut String,
        before: &Book<F>,
        after: &Book<F>,
    ) -> Result<(), Fault> {
        for (old, new) in before.table.lines.iter().zip(&after.table.lines) {
            if let Some(row) = self.row::<F>(old, new)? {
                row.write::<F>(heap, out)?;
            }
        }
        Ok(())
    }

    // The row of a place, if there is one.
    fn row<F: Family>(&self, old: &Place, new: &Place) -> Result<Option<Row>, Refusal> {
        match (old, new) {
            (Place::Free, Place::Free) => Ok(None),
            (Place::Free, Place::Taken(line)) => {
                let last = Last::Listed(line.terms.series);
                Ok(Some(Row::once(&line.terms, last)))
            }
            (Place::Taken(line), Place::Free) => {
                let last = Last::Expired(line.terms.series);
                Ok(Some(Row::once(&line.terms, last)))
            }
            (Place::Taken(old), Place::Taken(new)) => self.change::<F>(&old.terms, &new.terms),
        }
    }

    // The row of a line that stays in its place.
    fn change<F: Family>(&self, before: &Terms, after: &Terms) -> Result<Option<Row>, Refusal> {
        let last = match self {
            Lines::Adjusted(happening) if happening.takes_in(before) => {
                Last::worth::<F>(before, happening)?
            }
            Lines::Claims if before != after => Last::Claim(after.claim),
            _ => return Ok(None),
        };
        Ok(Some(Row {
            before: *before,
            after: *after,
            last,
        }))
    }
}

impl Last {
    // What a lot is worth at the price before an event, and afterwards at its reference price.
    fn worth<F: Family>(line: &Terms, happening: &Happening) -> Result<Last, Refusal> {
        let after = line.adjust::<F>(happening.day, &happening.event)?;
        Ok(Last::Worth {
            before: line.worth(happening.price),
            after: after.worth(happening.reference()?),
        })
    }
}

impl Row {
    // The row of a line that is there only before a step, or only after it.
    fn once(line: &Terms, last: Last) -> Row {
        Row {
            before: *line,
            after: *line,
            last,
        }
    }

    // Texts, since a column pads what is one.
    fn write<F: Family>(&self, heap: Global, out: &mut String) -> Result<(), Fault> {
        let Row {
            before,
            after,
            last,
        } = self;
        let code = Change {
            before: CodeText::of::<F>(&before.series),
            after: CodeText::of::<F>(&after.series),
        }
        .to_string(heap)?;
        let shares = Change {
            before: shares(before.units),
            after: shares(after.units),
        }
        .to_string(heap)?;
        let dollars = Change {
            before: whole(before.cash),
            after: whole(after.cash),
        }
        .to_string(heap)?;
        let expiry = MonthDay(after.series.expiry);
        writeln!(
            out,
            "  {code:<10}  {expiry}   {shares:<14}  {dollars:<14}  {last}"
        )?;
        Ok(())
    }
}

impl fmt::Display for Last {
    fn fmt<W: fmt::Write>(&self, f: &mut fmt::Formatter<W>) -> fmt::Result {
        match *self {
            Last::Listed(series) => {
                let contract = Contract(series);
                write!(f, "{contract}")
            }
            Last::Expired(series) => {
                let contract = Contract(series);
                write!(f, "{contract}, expired")
            }
            Last::Worth { before, after } => {
                let (before, after) = (money(before), money(after));
                write!(f, "{before} -> {after}")
            }
            Last::Claim(Claim::Absent) => f.write_str("none"),
            Last::Claim(Claim::Fixed { dollars }) => {
                let dollars = whole(dollars);
                write!(f, "{dollars} dollars")
            }
            Last::Claim(
                Claim::Open {
                    units,
                    price: cents,
                    deadline,
                },
            ) => {
                let (shares, price, deadline) = (shares(units), price(cents), MonthDay(deadline));
                write!(f, "{shares} at {price} until {deadline}")
            }
        }
    }
}

/// What a line is a contract on, as call at 25.00.
#[derive(Clone, Copy)]
struct Contract(Series);

impl fmt::Display for Contract {
    fn fmt<W: fmt::Write>(&self, f: &mut fmt::Formatter<W>) -> fmt::Result {
        let strike = price(self.0.strike);
        match self.0.right {
            Right::Without => f.write_str("future"),
            Right::Call => write!(f, "call at {strike}"),
            Right::Put => write!(f, "put at {strike}"),
        }
    }
}
