//! Patterns from bytes.
ghost use Rattle.std.specs.Prelude.{◌≡◌, ◌*◌, IfOk, Some, None, MatchResult};
ghost use Rattle.measures.specs.Acceptance.{MarksReach, Recognizes};
ghost use Rattle.measures.specs.Formats.{head_fault, pattern_fault, states_in, labels_in, start_in, finals_in};
ghost use Rattle.measures.specs.Patterns.{IsPatternOf, bytes_read};

use super::super::Measure;
use super::super::judges::Judge;
use super::super::refusals::{Fault, Refusal};
use super::super::sizes::Count;
use super::super::tables::{table, with_zeros};
use super::{Head, Pattern};
use bitset::is_below;
use text::Cursor;

// The first byte of a pattern.
const TAG: u8 = 0x20;

// The number of bytes before a pattern's table.
const HEAD: usize = 12;

impl Head {
    // The first twelve bytes of a pattern.
    fn read(input: &[u8]) -> Result<Head, Fault>
        ensures { MatchResult result
            (λ h. (head_fault input.now ≡ None) × (h.states.number ≡ states_in input.now)
            × (h.labels.number ≡ labels_in input.now) × (h.start ≡ start_in input.now)
            × (h.finals ≡ finals_in input.now))
            (λ f. head_fault input.now ≡ Some f) }
    {
        let too_short = Fault::at(Refusal::PatternTooShort, input.len());
        let (first, rest) = input.split_first_chunk::<4>().ok_or(too_short)?;
        let finals = rest.first_chunk::<8>().ok_or(too_short)?;
        let [tag, states, labels, start] = *first;
        if tag != TAG {
            return Err(Fault::at(Refusal::NotAPattern, 0));
        }
        let states = Count::new(states).ok_or(Fault::at(Refusal::StateCount, 1))?;
        let labels = Count::new(labels).ok_or(Fault::at(Refusal::LabelCount, 2))?;
        if start >= states.number {
            return Err(Fault::at(Refusal::StartState, 3));
        }
        let finals = u64::from_le_bytes(*finals);
        if !is_below(finals, states.number) {
            return Err(Fault::at(Refusal::FinalStates, 4));
        }
        Ok(Head {
            states,
            labels,
            start,
            finals,
        })
    }
}

impl Pattern {
    /// The pattern at the beginning of the input, with the fault of the first question that is answered no (13 to 20). The set of words
    /// holds the states to which they lead (`recognizes`), and whatever calls a board was handed, the set answered at a mark those to which the
    /// longest flows that end there lead (`runs`).
    pub fn read(input: &[u8]) -> Result<Pattern, Fault>
        ensures answer { MatchResult result
            (λ p. (pattern_fault input.now ≡ None) × IsPatternOf input.now p)
            (λ f. pattern_fault input.now ≡ Some f) }
        ensures recognizes { IfOk result (λ p. Recognizes input.now
            (⟦<Pattern as Measure>⟧.meaning p) (⟦<Pattern as Judge>⟧.some_of p) (⟦<Pattern as Judge>⟧.all_of p)) }
        ensures runs { IfOk result (λ p. MarksReach input.now
            (⟦<Pattern as Measure>⟧.meaning p) (⟦<Pattern as Judge>⟧.some_of p) (⟦<Pattern as Judge>⟧.all_of p)) }
    {
        let head = Head::read(input)?;
        let after = Cursor { input, place: HEAD };
        let table = table(after, head.entries(), head.states.number)?;
        Ok(Pattern {
            head,
            table: with_zeros(table),
        })
    }

    /// The number of bytes that the pattern was read from.
    pub fn size(&self) -> usize
        ensures { result ≡ bytes_read self.now }
    {
        HEAD + self.head.entries()
    }
}
