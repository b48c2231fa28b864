//! Stock futures.
ghost use Rattle.std.specs.Prelude.{◌≡◌};
ghost use Rattle.terms.specs.Futures.{futures, futures_value};
ghost use Rattle.terms.specs.FamilyLaws.{futures_law};

use crate::event::Event;
use crate::family::Family;
use crate::lot::Lot;
use crate::right::Right;
use crate::units::{Cents, DOLLAR, Dollars, Micros, ShareUnits};

#[derive(Clone, Copy)]
pub struct Futures;

impl Family for Futures {
    ghost answers = { futures };

    const LARGEST_LOT: ShareUnits = 400_000_000;

    const STANDARD: char = 'F';

    ghost keeps = { futures_law };

    fn lot_limit() -> ShareUnits {
        Self::LARGEST_LOT
    }

    fn standard_letter() -> char {
        Self::STANDARD
    }

    fn letter(level: u8) -> Option<char> {
        match level {
            0 => Some('F'),
            1 => Some('1'),
            2 => Some('2'),
            3 => Some('3'),
            4 => Some('4'),
            5 => Some('5'),
            6 => Some('6'),
            7 => Some('7'),
            8 => Some('8'),
            9 => Some('9'),
            _ => None,
        }
    }

    fn level(letter: char) -> Option<u8> {
        match letter {
            'F' => Some(0),
            '1' => Some(1),
            '2' => Some(2),
            '3' => Some(3),
            '4' => Some(4),
            '5' => Some(5),
            '6' => Some(6),
            '7' => Some(7),
            '8' => Some(8),
            '9' => Some(9),
            _ => None,
        }
    }

    fn fits(right: Right, strike: Cents) -> bool {
        match right {
            Right::Without => strike == 0,
            Right::Call | Right::Put => false,
        }
    }

    fn moves(event: &Event) -> bool {
        !event.is_cash_alone()
    }

    fn split(amount: Dollars) -> (Dollars, Dollars) {
        (0, amount)
    }

    fn trade_value(lot: &Lot, price: Cents) -> Micros {
        value(lot, price)
    }

    fn mark_value(lot: &Lot, price: Cents) -> Micros {
        value(lot, price)
    }

    fn final_value(lot: &Lot, price: Cents, dollars: Dollars) -> Micros {
        value(lot, price) + u64::from(dollars) * DOLLAR
    }
}

// A lot at a price.
fn value(lot: &Lot, price: Cents) -> Micros
    ensures { result ≡ futures_value lot.now price }
{
    u64::from(price) * u64::from(lot.units)
}
