//! The steps of the demo's story, and the words around them.
use crate::calls::{
    DEADLINE, DECEMBER, DIVIDEND, Happening, JULY_12, JULY_13, MAY_19, NOVEMBER, OCTOBER_11,
    OCTOBER_12, OCTOBER_26, SEPTEMBER_22, STOCK_DIVIDEND,
};
use terms::units::Day;

/// A step of the story: its day, what happens, what is told of the lines, and the calls that have then been made.
#[derive(Clone, Copy)]
pub(crate) struct Step {
    pub(crate) day: Day,
    pub(crate) what: &'static str,
    pub(crate) lines: Lines,
    pub(crate) made: Made,
}

/// What a step tells of the lines that it changes.
#[derive(Clone, Copy)]
pub(crate) enum Lines {
    Unchanged,
    Listed,
    /// The worth of a lot before and after an event.
    Adjusted(Happening),
    Claims,
    Expired,
}

/// How many calls each book has been given.
#[derive(Clone, Copy)]
pub(crate) struct Made {
    pub(crate) options: usize,
    pub(crate) futures: usize,
}

pub(crate) const STEPS: [Step; 12] = [
    Step {
        day: MAY_19,
        what: "\
            Brokers 101, 102 and 103 open accounts. A call with strike 25.00\n\
            is listed in one book, a future at 25.00 in the other.",
        lines: Lines::Listed,
        made: Made {
            options: 4,
            futures: 4,
        },
    },
    Step {
        day: JULY_12,
        what: "\
            101 buys from 102 two lots of the call at 1.60: the premium of\n\
            2 x 2,000 x 1.60 = 6,400 dollars is paid at once. And three lots\n\
            of the future at 25.20, which is marked at 25.30 that evening:\n\
            3 x 2,000 x 0.10 = 600 dollars.",
        lines: Lines::Unchanged,
        made: Made {
            options: 5,
            futures: 6,
        },
    },
    Step {
        day: JULY_13,
        what: "\
            A dividend of 1 dollar for each share. An option keeps it in the\n\
            lot and moves on by a letter. In futures it is booked: credited\n\
            to lots bought and charged to lots sold; the code stays.",
        lines: Lines::Adjusted(DIVIDEND),
        made: Made {
            options: 6,
            futures: 7,
        },
    },
    Step {
        day: JULY_13,
        what: "\
            Futures are marked at 24.30. What the price lost, the dividend\n\
            gave: their equities are again those of the evening before. A\n\
            new CNO is listed, without the dollars; 103 buys three lots of\n\
            it from 101 at 1.10.",
        lines: Lines::Listed,
        made: Made {
            options: 8,
            futures: 8,
        },
    },
    Step {
        day: SEPTEMBER_22,
        what: "November is listed: a put with strike 26.00, a future at 26.00.",
        lines: Lines::Listed,
        made: Made {
            options: 9,
            futures: 9,
        },
    },
    Step {
        day: OCTOBER_11,
        what: "\
            102 buys from 103 four lots of November's put at 0.90 and four of\n\
            its future at 26.35. 103 buys from 101 two lots of December's\n\
            future at 26.45. Both months are marked at 26.55 that evening.",
        lines: Lines::Unchanged,
        made: Made {
            options: 10,
            futures: 13,
        },
    },
    Step {
        day: OCTOBER_12,
        what: "\
            A stock dividend of 0.1 shares for each share. All lines move on\n\
            together, each generation by one letter: CNO becomes CNA while\n\
            CNA becomes CNB, and the two never meet.",
        lines: Lines::Adjusted(STOCK_DIVIDEND),
        made: Made {
            options: 11,
            futures: 14,
        },
    },
    Step {
        day: OCTOBER_12,
        what: "\
            Futures are marked at 24.14, rounded up from 24.136.., which\n\
            makes 8 dollars a lot. 103 buys one lot of CNB from 101 at 1.30.\n\
            A premium, like the strike, is still for the 2,000 shares of the\n\
            listing: 2,600 dollars.",
        lines: Lines::Unchanged,
        made: Made {
            options: 12,
            futures: 16,
        },
    },
    Step {
        day: OCTOBER_26,
        what: "\
            Rights to 0.05 shares for each share at 16.30, payable until\n\
            2022-12-05. A lot of 2,200 shares gets a claim on 110. No dollar\n\
            moves, and a price is its own reference price.",
        lines: Lines::Claims,
        made: Made {
            options: 13,
            futures: 17,
        },
    },
    Step {
        day: NOVEMBER,
        what: "\
            November expires at 22.80, and the stock closes at 22.90. The\n\
            deadline is still to come, so the claim counts at this close:\n\
            110 x (22.90 - 16.30) = 726 dollars. A lot of the future ends at\n\
            2,200 x 22.80 + 726 = 50,886 dollars, and one of the put at\n\
            2,000 x 26.00 - 50,886 = 1,114.",
        lines: Lines::Expired,
        made: Made {
            options: 14,
            futures: 18,
        },
    },
    Step {
        day: DEADLINE,
        what: "\
            The payment deadline. The stock closes at 23.30, and the claims\n\
            still open become 110 x (23.30 - 16.30) = 770 dollars.",
        lines: Lines::Claims,
        made: Made {
            options: 15,
            futures: 19,
        },
    },
    Step {
        day: DECEMBER,
        what: "\
            December expires at 24.05; that the stock closes at 24.10 no\n\
            longer counts. A lot of the future ends at 2,200 x 24.05 + 770 =\n\
            53,680 dollars. Less the strike, 2,000 x 25.00 = 50,000, a lot\n\
            of CNB ends at 3,680, and one of CNC, with July's 2,000 dollars,\n\
            at 5,680.",
        lines: Lines::Expired,
        made: Made {
            options: 17,
            futures: 20,
        },
    },
];

pub(crate) const OPENING: &str = "\
One stock, followed to the end in two books: options and futures on stock 2891,
prefix CN. For this stock the exchange has rehearsed a dividend of 1 dollar and
a stock dividend of 0.1, and shown rights to 100 shares for 2,000 at 16.30. The
dates, prices and trades are assumed; futures are marked only where it matters.

The worth of a lot is its shares at a price, with the dollars kept in it or
booked for it, claims aside. CNA/12 is the CNA that expires in December. Lots
below zero are sold. Each account has an equity in each book, in dollars; each
column adds up to zero.

";

pub(crate) const CLOSING: &str = "\
Each generation kept what was its own: July's 2,000 dollars are what a lot of
CNC ended above one of CNB. No event changed the worth of a lot but by rounding,
and each month's claim was counted on its own day. Bought and sold lots were as
many, and the equities added up to zero, after every call: the program's books
come with the proof of it.
";
