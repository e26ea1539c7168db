//! Measures of the flows that end at a mark, judges of their words, and boards under a measure, with the law of what they answer.
//!
//! A unit is one process of a handset; a mark is an event that it shows, with a label; a flow is a chain of marks, each an immediate predecessor of
//! the next, and its word is the list of their letters. Stands on `causality`, whose boards carry a measure's values here, on `text`, and on what is
//! below them.
#![tactic(auto)]

ghost use Rattle.std.specs.Prelude.{◌≡◌};
ghost use Rattle.measures.specs.Laws.{LawOfRuns};
ghost use Rattle.measures.specs.Measures.{Meaning, Lawful, word_value, ThroughJoins};

pub mod boards;
pub mod counts;
pub mod judges;
pub mod marking;
pub mod patterns;
pub mod refusals;
pub mod relabellings;
pub mod replays;
mod sizes;
pub mod spans;
mod tables;

pub use boards::{Measured, hand_judged, judged_answer, mark_judged};
pub use counts::FlowCount;
use history::Letter;
pub use judges::{Judge, JudgedValue, Verdict, verdicts};
pub use marking::mark_value;
pub use patterns::Pattern;
pub use refusals::{Fault, Refusal};
pub use relabellings::Relabelling;
pub use replays::replay;
pub use sizes::MOST_LABELS;
pub use spans::{Lengths, Span};

/// A measure: a number of labels, a start value, a step from a value by a letter and a join of two values, lawful on the values that it admits. A
/// step by a letter that it does not have leaves the value. None of the four refuses or changes anything.
pub trait Measure {
    /// What is known of the flows that end at a mark.
    type Value: Copy;

    // the four things that it offers
    ghost meaning: { Self → Meaning Self.Value };

    // the values on which it is lawful
    ghost admits: { Self → Self.Value → Type 0 };

    /// The number of labels.
    fn labels(&self) -> u8
        ensures { result ≡ (meaning self.now).labels };

    /// The value before any label.
    fn start(&self) -> Self::Value
        ensures { result ≡ (meaning self.now).start };

    /// The value after one more letter. A letter that the measure does not have leaves the value, which each measure sees to.
    fn step(&self, v: Self::Value, l: Letter) -> Self::Value
        ensures { result ≡ (meaning self.now).step v l };

    /// The value of all words of which a or b is the value.
    fn join(&self, a: Self::Value, b: Self::Value) -> Self::Value
        ensures { result ≡ (meaning self.now).join a b };

    ghost lawful: { (m : Self) → Lawful (meaning m) (admits m) };
}

/// The value of a word: the measure's start, stepped by each letter in turn. Steps go through joins (`joins`), and in every run of a board the
/// value of each accepted mark is the join of what it makes of the words of the longest flows that end there, each taken once, whatever the order of
/// the calls (`runs`).
#[tactic(auto, using(crate::proofs::WordValueFacts::word_value_more, crate::proofs::WordValueFacts::through_joins))]
pub fn value_along<M: Measure>(m: &M, word: &[Letter]) -> M::Value
    ensures value { result ≡ word_value (M.meaning m.now) word.now }
    ensures joins { ThroughJoins (M.meaning m.now) (M.admits m.now) }
    ensures runs { LawOfRuns (M.meaning m.now) }
{
    let mut v = m.start();
    for l in word {
        v = m.step(v, *l);
    }
    v
}
