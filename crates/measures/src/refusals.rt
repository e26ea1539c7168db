//! Why a pattern, a relabelling or a measure is refused.
ghost use Rattle.std.specs.Prelude.{◌≡◌};
ghost use Rattle.measures.specs.Refusals.{number, fault};

use thiserror::Error;

/// The refusals of readers and makers, each with its number.
#[derive(Clone, Copy, PartialEq, Eq, Debug, Error)]
pub enum Refusal {
    #[error("fewer than twelve bytes")]
    PatternTooShort = 13,
    #[error("the first byte is not 0x20")]
    NotAPattern = 14,
    #[error("the number of states is not from 1 to 64")]
    StateCount = 15,
    #[error("the number of labels is not from 1 to 64")]
    LabelCount = 16,
    #[error("the start state is no state")]
    StartState = 17,
    #[error("a final state is no state")]
    FinalStates = 18,
    #[error("bytes of a table, or a relabelling's count, are missing")]
    TableTooShort = 19,
    #[error("an entry of a table is no state, or no inner label")]
    EntryTooLarge = 20,
    #[error("the limit is above 65,534")]
    SpanLimit = 21,
    #[error("the first byte is missing, or not 0x30")]
    NotARelabelling = 22,
}

/// The number of a refusal.
impl From<Refusal> for u8 {
    ghost from_gives = { λ refusal n. n ≡ number refusal };

    fn from(refusal: Refusal) -> u8 {
        refusal as u8
    }
}

/// A refusal, and the byte of the input where it was met.
#[derive(Clone, Copy, PartialEq, Eq, Debug, Error)]
#[error("{refusal}, at byte {place}")]
pub struct Fault {
    pub refusal: Refusal,
    pub place: usize,
}

impl Fault {
    // The refusal, met at that byte.
    pub(crate) fn at(refusal: Refusal, place: usize) -> Fault
        ensures { result ≡ fault refusal place }
    {
        Fault { refusal, place }
    }
}
