//! Why a board or a comparison refuses a call.
ghost use Rattle.std.specs.Prelude.{◌≡◌};
ghost use Rattle.history.specs.Refusals.{number};

use thiserror::Error;

/// The refusals of boards and of comparisons, each with its number.
#[derive(Clone, Copy, PartialEq, Eq, Debug, Error)]
pub enum Refusal {
    #[error("a board cannot have so many units, or none")]
    UnitCount = 1,
    #[error("a board cannot have so many messages")]
    MessageCount = 2,
    #[error("a memory is too short for the board")]
    MemoryTooShort = 3,
    #[error("the unit is at or above the number of units")]
    NoSuchUnit = 4,
    #[error("the message is at or above the number of messages")]
    NoSuchMessage = 5,
    #[error("the label is at or above the label count")]
    NoSuchLabel = 6,
    #[error("the message was sent before")]
    SentBefore = 7,
    #[error("the message was never sent")]
    NeverSent = 8,
    #[error("the message was received before")]
    ReceivedBefore = 9,
    #[error("the unit's own clock has reached its limit")]
    ClockFull = 10,
    #[error("the stamps are not equally long, or not as long as a board has units")]
    StampLength = 12,
}

/// The number of a refusal.
impl From<Refusal> for u8 {
    ghost from_gives = { λ refusal n. n ≡ number refusal };

    fn from(refusal: Refusal) -> u8 {
        refusal as u8
    }
}
