//! The faults that end a report.
ghost use Rattle.std.specs.Prelude.{◌≡◌, [], ◌∷◌};
ghost use Rattle.reports.specs.Faults.{layer, number, place};

use history::Refusal;
use text::MOST_BYTES;

// The number of the fault that an input is too long.
const TOO_LONG: u8 = 29;

// Why a recording breaks off: a fault of its form, or a call that the board refuses.
#[derive(Clone, Copy, PartialEq, Eq, Debug)]
pub(crate) enum Reason {
    NoByte,
    NoCommand,
    NoOperands,
    NoBoard,
    SecondBoard,
    BytesAfterEnd,
    Refused(Refusal),
}

// The number of a reason; a board's refusal keeps its own.
impl From<Reason> for u8 {
    ghost use Rattle.std.specs.Prelude.{◌≡◌};
    ghost use Rattle.reports.specs.Faults.{reason_number};

    ghost from_gives = { λ reason n. n ≡ reason_number reason };

    fn from(reason: Reason) -> u8 {
        match reason {
            Reason::NoByte => 23,
            Reason::NoCommand => 24,
            Reason::NoOperands => 25,
            Reason::NoBoard => 26,
            Reason::SecondBoard => 27,
            Reason::BytesAfterEnd => 28,
            Reason::Refused(refusal) => u8::from(refusal),
        }
    }
}

// A call that the board refuses breaks the recording off.
impl From<Refusal> for Reason {
    ghost use Rattle.std.specs.Prelude.{◌≡◌};
    ghost use Rattle.reports.specs.declared.faults.Reason.TheVariants.{Refused};

    ghost from_gives = { λ refusal reason. reason ≡ Refused refusal };

    fn from(refusal: Refusal) -> Reason {
        Reason::Refused(refusal)
    }
}

// Why a recording breaks off, and the byte of the input where it does.
#[derive(Clone, Copy, PartialEq, Eq, Debug)]
pub(crate) struct RecordingFault {
    pub(crate) reason: Reason,
    pub(crate) place: usize,
}

// A fault of the input, by the layer that meets it.
#[derive(Clone, Copy, PartialEq, Eq, Debug)]
pub(crate) enum Fault {
    TooLong,
    Pattern(measures::Fault),
    Relabelling(measures::Fault),
    Recording(RecordingFault),
}

impl Fault {
    // The layer that meets the fault, by its first byte in a report: input, pattern, relabelling, recording or board.
    pub(crate) fn layer(self) -> u8
        ensures { layer self ≡ result ∷ [] }
    {
        match self {
            Fault::TooLong => b'I',
            Fault::Pattern(_) => b'P',
            Fault::Relabelling(_) => b'L',
            Fault::Recording(at) => match at.reason {
                Reason::Refused(_) => b'B',
                _ => b'R',
            },
        }
    }

    // Its number.
    pub(crate) fn number(self) -> u8
        ensures { result ≡ number self }
    {
        match self {
            Fault::TooLong => TOO_LONG,
            Fault::Pattern(fault) | Fault::Relabelling(fault) => u8::from(fault.refusal),
            Fault::Recording(at) => u8::from(at.reason),
        }
    }

    // The byte of the input at which it is met.
    pub(crate) fn place(self) -> usize
        ensures { result ≡ place self }
    {
        match self {
            Fault::TooLong => MOST_BYTES,
            Fault::Pattern(fault) | Fault::Relabelling(fault) => fault.place,
            Fault::Recording(at) => at.place,
        }
    }
}

// A recording that breaks off is a fault of the input.
impl From<RecordingFault> for Fault {
    ghost use Rattle.std.specs.Prelude.{◌≡◌};
    ghost use Rattle.reports.specs.declared.faults.Fault.TheVariants.{Recording};

    ghost from_gives = { λ at fault. fault ≡ Recording at };

    fn from(at: RecordingFault) -> Fault {
        Fault::Recording(at)
    }
}
