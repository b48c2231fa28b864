//! Adjusting the lines of a stock for an event.
ghost use Rattle.std.specs.Prelude.{◌≡◌, false};
ghost use Rattle.lookup.specs.Seek.{any_of};
ghost use Rattle.terms.specs.Refusals.{answer, first, Accepted};
ghost use Rattle.rows.specs.Adjustment.{level_passes, lot_leaves, moving_refusals, moving_table, taking_refusals, adjustment_refusals, adjustment_table, lines_taken_in};
ghost use Rattle.rows.specs.Calls.{settled};

use crate::book::Book;
use moves::entries::Entries;
use moves::onset::Onset;
use terms::event::Event;
use terms::family::Family;
use terms::refusal::Refusal;
use terms::units;
use terms::units::Day;

impl<F: Family> Book<F> {
    /// Adjusts the lines that an event takes in, all together, and answers how many they are.
    pub fn adjustment(&mut self, day: Day, event: Event) -> Result<usize, Refusal>
        ensures refusal { answer result ≡ first (adjustment_refusals F.Family.answers self.old.table day event) }
        ensures lines { Accepted result (λ n. n ≡ lines_taken_in self.old.table day event) }
        ensures after { self.new.table ≡ settled (answer result) (adjustment_table F.Family.answers self.old.table day event) self.old.table }
    {
        event.judge(day)?;
        if day < self.table.day {
            return Err(Refusal::DayPassed);
        }
        let taken = self.take_in(Onset { day, event })?;
        self.table.day = day;
        Ok(taken)
    }

    // Moves the lines that a judged event takes in, where nothing that it finds in a place is in its
    // way.
    fn take_in(&mut self, onset: Onset) -> Result<usize, Refusal>
        ensures refusal { answer result ≡ first (taking_refusals F.Family.answers self.old.table onset.day onset.event) }
        ensures lines { Accepted result (λ n. n ≡ lines_taken_in self.old.table onset.day onset.event) }
        ensures after { self.new.table ≡ settled (answer result) (moving_table F.Family.answers self.old.table onset.day onset.event) self.old.table }
    {
        let lines = onset.lines_taken_in(&self.table.lines);
        if lines == 0 {
            return Err(Refusal::NoLine);
        }
        if onset.meets_a_name::<F>(&self.table.lines) {
            return Err(Refusal::NameTaken);
        }
        if onset.contradicts_a_stock(&self.table.lines) {
            return Err(Refusal::PrefixConflict);
        }
        if onset.finds_a_lapsed(&self.table.lines) {
            return Err(Refusal::LapsedLine);
        }
        if onset.passes_a_level::<F>(&self.table.lines) {
            return Err(Refusal::LevelPastNine);
        }
        if onset.leaves_a_limit::<F>(&self.table.lines) {
            return Err(Refusal::LotOutsideLimits);
        }
        if onset.meets_a_claim(&self.table.lines) {
            return Err(Refusal::ClaimInTheWay);
        }
        self.move_on(onset)?;
        Ok(lines)
    }

    // Books the dollars of each place and moves every line taken in, where no equity then passes its
    // limit.
    fn move_on(&mut self, onset: Onset) -> Result<(), Refusal>
        requires levels { any_of (level_passes F.Family.answers onset.day onset.event) self.old.table.lines ≡ false }
        requires lots { any_of (lot_leaves F.Family.answers onset.day onset.event) self.old.table.lines ≡ false }
        ensures refusal { answer result ≡ first (moving_refusals F.Family.answers self.old.table onset.day onset.event) }
        ensures after { self.new.table ≡ settled (answer result) (moving_table F.Family.answers self.old.table onset.day onset.event) self.old.table }
    {
        let entries = Entries::of::<F>(&self.table.lines, &onset);
        if entries.pass_a_limit(&self.table.accounts) {
            return Err(Refusal::EquityPastLimit);
        }
        entries.book(&mut self.table.accounts);
        onset.move_lines::<F>(&mut self.table.lines);
        Ok(())
    }
}
