//! How one mark stands to another.
ghost use Rattle.std.specs.Prelude.{◌≡◌};
ghost use Rattle.history.specs.Precedence.{precedence_number};

/// The causal order of two marks, each answer with the number by which it is known.
/// No `Option<Ordering>`: that neither mark is before the other is an answer like the other three, with a number of its own.
#[derive(Clone, Copy, PartialEq, Eq, Debug)]
pub enum Precedence {
    /// Both are one mark.
    Same = 0,
    /// The first is before the second.
    Precedes = 1,
    /// The second is before the first.
    Follows = 2,
    /// Neither is before the other.
    Concurrent = 3,
}

/// The number of an answer.
impl From<Precedence> for u8 {
    ghost from_gives = { λ order n. n ≡ precedence_number order };

    fn from(order: Precedence) -> u8 {
        order as u8
    }
}
