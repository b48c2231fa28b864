//! One call, whichever it is.
ghost use Rattle.std.specs.Prelude.{◌≡◌};
ghost use Rattle.terms.specs.Refusals.{answer, Accepted, Smallest};
ghost use Rattle.rows.specs.Calls.{refusals, refusal as refusal_of, after as after_of, done as done_of, settled};

use crate::book::Book;
use rows::call::{Call, Done};
use terms::family::Family;
use terms::refusal::Refusal;

impl<F: Family> Book<F> {
    /// Makes one call, whichever it is. The number of a refusal is the smallest that fits.
    #[tactic(auto, using(rows::proofs::Rising::call_smallest))]
    pub fn make(&mut self, call: Call) -> Result<(), Refusal>
        ensures refusal { answer result ≡ refusal_of F.Family.answers self.old.table call }
        ensures smallest { Smallest (answer result) (refusals F.Family.answers self.old.table call) }
        ensures after { self.new.table ≡ settled (answer result) (after_of F.Family.answers self.old.table call) self.old.table }
    {
        self.carry_out(call)?;
        Ok(())
    }

    /// Makes one call, and says what it did.
    pub fn carry_out(&mut self, call: Call) -> Result<Done, Refusal>
        ensures refusal { answer result ≡ refusal_of F.Family.answers self.old.table call }
        ensures done { Accepted result (λ x. x ≡ done_of self.old.table call) }
        ensures after { self.new.table ≡ settled (answer result) (after_of F.Family.answers self.old.table call) self.old.table }
    {
        match call {
            Call::Opening { day, account } => self.opening(day, account)?,
            Call::Listing {
                day,
                name,
                stock,
                units,
                price,
            } => self.listing(day, name, stock, units, price)?,
            Call::Trade {
                day,
                name,
                buyer,
                seller,
                price,
                lots,
            } => self.trade(day, name, buyer, seller, price, lots)?,
            Call::Mark { day, name, price } => self.mark(day, name, price)?,
            Call::Adjustment { day, event } => {
                let lines = self.adjustment(day, event)?;
                return Ok(Done::TookIn { lines });
            }
            Call::Fixing {
                day,
                stock,
                deadline,
                close,
            } => self.fixing(day, stock, deadline, close)?,
            Call::Expiry {
                day,
                name,
                price,
                close,
            } => self.expiry(day, name, price, close)?,
        }
        Ok(Done::Made)
    }
}
