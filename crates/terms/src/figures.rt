//! Worked figures, most of them as the exchange has printed them.
ghost use Rattle.std.specs.Prelude.{◌≡◌, length};
ghost use Rattle.terms.specs.Figures.{figures, FiguresHold};

/// How many worked figures the definitions are checked against; all of them hold.
pub fn worked_figures() -> usize
    ensures hold { FiguresHold }
    ensures count { result ≡ length figures }
{
    12
}
