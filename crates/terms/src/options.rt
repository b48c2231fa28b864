//! Stock options.
ghost use Rattle.terms.specs.Options.{options};
ghost use Rattle.terms.specs.FamilyLaws.{options_law};

use crate::event::Event;
use crate::family::Family;
use crate::lot::Lot;
use crate::right::Right;
use crate::units;
use crate::units::{Cents, DOLLAR, Dollars, Micros, ShareUnits};

#[derive(Clone, Copy)]
pub struct Options;

impl Family for Options {
    ghost answers = { options };

    const LARGEST_LOT: ShareUnits = 200_000_000;

    const STANDARD: char = 'O';

    ghost keeps = { options_law };

    fn lot_limit() -> ShareUnits {
        Self::LARGEST_LOT
    }

    fn standard_letter() -> char {
        Self::STANDARD
    }

    fn letter(level: u8) -> Option<char> {
        match level {
            0 => Some('O'),
            1 => Some('A'),
            2 => Some('B'),
            3 => Some('C'),
            4 => Some('D'),
            5 => Some('E'),
            6 => Some('F'),
            7 => Some('G'),
            8 => Some('H'),
            9 => Some('I'),
            _ => None,
        }
    }

    fn level(letter: char) -> Option<u8> {
        match letter {
            'O' => Some(0),
            'A' => Some(1),
            'B' => Some(2),
            'C' => Some(3),
            'D' => Some(4),
            'E' => Some(5),
            'F' => Some(6),
            'G' => Some(7),
            'H' => Some(8),
            'I' => Some(9),
            _ => None,
        }
    }

    fn fits(right: Right, strike: Cents) -> bool {
        match right {
            Right::Without => false,
            Right::Call | Right::Put => units::is_price(strike),
        }
    }

    fn moves(_event: &Event) -> bool {
        true
    }

    fn split(amount: Dollars) -> (Dollars, Dollars) {
        (amount, 0)
    }

    fn trade_value(lot: &Lot, price: Cents) -> Micros {
        u64::from(price) * u64::from(lot.strike_lot)
    }

    fn mark_value(_lot: &Lot, _price: Cents) -> Micros {
        0
    }

    fn final_value(lot: &Lot, price: Cents, dollars: Dollars) -> Micros {
        let dollars = u64::from(lot.cash) + u64::from(dollars);
        let delivered = u64::from(price) * u64::from(lot.units) + dollars * DOLLAR;
        let struck = u64::from(lot.strike) * u64::from(lot.strike_lot);
        match lot.right {
            Right::Without => 0,
            Right::Call => delivered.saturating_sub(struck),
            Right::Put => struck.saturating_sub(delivered),
        }
    }
}
