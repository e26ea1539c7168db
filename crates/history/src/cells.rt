//! Cells of the rows of a board.
ghost use Rattle.std.specs.Prelude.{◌≡◌};

use super::calls::Clock;

/// What a row knows of one unit: how many of its marks, whether the last of these is an immediate predecessor of what comes next, and
/// what is carried along the flows that end there. Flag and value are no `Option`: they lie in two memories of the caller's, of any contents.
#[derive(Clone, Copy, PartialEq, Eq, Debug)]
pub struct Cell<V> {
    pub clock: Clock,
    pub flag: bool,
    pub value: V,
}

impl<V: Copy> Cell<V> {
    ghost use Rattle.history.specs.Rows.{news};

    /// Whether the other cell knows a mark that this one does not. No derived order: that would compare flags and values too.
    pub fn is_behind(self, other: Cell<V>) -> bool
        ensures { result ≡ news self other }
    {
        self.clock < other.clock
    }
}
