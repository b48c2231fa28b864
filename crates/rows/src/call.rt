//! A call with its arguments, as one value. The book's own calls take them one by one, as their definitions do.
use terms::code::Name;
use terms::event::Event;
use terms::units::{Cents, Day, ShareUnits};

#[derive(Clone, Copy, PartialEq, Eq, Debug)]
pub enum Call {
    Opening {
        day: Day,
        account: u32,
    },
    Listing {
        day: Day,
        name: Name,
        stock: u32,
        units: ShareUnits,
        price: Cents,
    },
    Trade {
        day: Day,
        name: Name,
        buyer: u32,
        seller: u32,
        price: Cents,
        lots: u16,
    },
    Mark {
        day: Day,
        name: Name,
        price: Cents,
    },
    Adjustment {
        day: Day,
        event: Event,
    },
    /// The close is the stock's on the payment deadline.
    Fixing {
        day: Day,
        stock: u32,
        deadline: Day,
        close: Cents,
    },
    /// The price is the final one, the close the stock's on the day of expiry.
    Expiry {
        day: Day,
        name: Name,
        price: Cents,
        close: Cents,
    },
}

/// What an accepted call answers. (An `Option<usize>` would not say what is counted.)
#[derive(Clone, Copy, PartialEq, Eq, Debug)]
pub enum Done {
    Made,
    /// An adjustment took in so many lines.
    TookIn { lines: usize },
}
