//! A product family: the answers by which alone the book knows it.
ghost use Rattle.std.specs.Prelude.{◌≡◌, true, Some};
ghost use Rattle.terms.specs.Family.{Answers, Law, priced};
ghost use Rattle.terms.specs.Units.{is_claim};

use crate::event::Event;
use crate::lot::Lot;
use crate::right::Right;
use crate::units::{Cents, Dollars, Micros, ShareUnits};

pub trait Family {
    ghost answers: { Answers };

    const LARGEST_LOT: ShareUnits;

    const STANDARD: char;

    /// The largest lot. (Each family's own function, as the letter of level 0: one for all would rest on a
    /// law of the constants, and ask more of a family.)
    fn lot_limit() -> ShareUnits
        ensures { result ≡ answers.largest };

    /// The letter of level 0.
    fn standard_letter() -> char
        ensures { Some result ≡ answers.letter 0 };

    // (Letter and level by cases in each family, as a clerk reads them: by a table, that one undoes the
    // other would be a fact of a search.)
    fn letter(level: u8) -> Option<char>
        ensures { result ≡ answers.letter level };

    fn level(letter: char) -> Option<u8>
        ensures { result ≡ answers.level letter };

    /// Whether lines of this right and strike can be listed.
    fn fits(right: Right, strike: Cents) -> bool
        ensures { result ≡ answers.fits right strike };

    /// Whether the event moves a line's code one level up.
    fn moves(event: &Event) -> bool
        ensures { result ≡ answers.moves event.now };

    /// The parts of a cash amount: kept in the lot, and booked to the buyer.
    fn split(amount: Dollars) -> (Dollars, Dollars)
        ensures kept { result.0 ≡ answers.kept amount }
        ensures booked { result.1 ≡ answers.booked amount };

    // (A lot and a price stay apart: a struct that holds `priced` of both would have the family in its
    // type, and each is made for one call.)
    fn trade_value(lot: &Lot, price: Cents) -> Micros
        requires { priced answers lot.now price ≡ true }
        ensures { result ≡ answers.trade lot.now price };

    fn mark_value(lot: &Lot, price: Cents) -> Micros
        requires { priced answers lot.now price ≡ true }
        ensures { result ≡ answers.mark lot.now price };

    /// The value at expiry, with the dollars of the lot's claim.
    fn final_value(lot: &Lot, price: Cents, dollars: Dollars) -> Micros
        requires within { priced answers lot.now price ≡ true }
        requires claimed { is_claim dollars ≡ true }
        ensures { result ≡ answers.final lot.now price dollars };

    // What each family must show, and all that the book may rest on.
    ghost keeps: { Law answers };
}
