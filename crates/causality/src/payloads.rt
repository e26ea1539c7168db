//! What the cells of a board carry beside clocks and flags.
ghost use Rattle.std.specs.Prelude.{◌≡◌, ℕ};
ghost use Rattle.history.specs.declared.cells.Cell.{Cell};
ghost use Rattle.causality.specs.Payloads.{Reads, bare, PayloadRules};

/// What cells carry along the flows of a run: a start, what a mark makes of the values of its predecessors, and which labels a unit may use.
pub trait Payload {
    /// What one cell carries.
    type Value: Copy;

    // the three things that it offers, on boards of any number of units
    ghost rules: { Self → PayloadRules Self.Value };

    /// What a new cell carries.
    fn start(&self) -> Self::Value
        ensures { result ≡ (rules self.now).start };

    /// What a mark of a unit with a label makes, by the set of the units that have an immediate predecessor of it, and the values of its
    /// unit's row before it: the same for every row with these flags and values.
    fn worth(
        &self,
        predecessors: u64,
        values: &[Self::Value],
        unit: usize,
        label: u8,
    ) -> Self::Value
        ensures { (n : ℕ) (r : ℕ → Cell Self.Value)
            → Reads (rules self.now).start n r predecessors values.now
            → result ≡ (rules self.now).make n r unit label };

    /// Whether a unit may use a label.
    fn fits(&self, unit: usize, label: u8) -> bool
        ensures { result ≡ (rules self.now).fits unit label };
}

/// Nothing is carried, and every label may be used.
#[derive(Clone, Copy, PartialEq, Eq, Debug)]
pub struct Bare {
    nothing: (),
}

impl Bare {
    /// What is carried on a board without measures: of every label a mark makes nothing, and each label may be used.
    pub fn new() -> Bare
        ensures { ⟦<Bare as Payload>⟧.rules result ≡ bare }
    {
        Bare { nothing: () }
    }
}

impl Payload for Bare {
    type Value = ();

    ghost rules = { λ _. bare };

    fn start(&self) {}

    fn worth(&self, _predecessors: u64, _values: &[()], _unit: usize, _label: u8) {}

    fn fits(&self, _unit: usize, _label: u8) -> bool {
        true
    }
}
