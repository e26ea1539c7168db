//! The pattern: an automaton that accepts the good words, whose values are the sets of states that flows reach.
ghost use Rattle.std.specs.Prelude.{◌≡◌, ℕ, ◌*◌, ◌^◌, ◌<◌, ◌≤◌, slice_index};
ghost use Rattle.measures.specs.Limits.{most_entries};

use super::Measure;
use super::judges::Judge;
use super::sizes::Count;
use bitset::{insert, intersects, is_subset, union};
use history::Letter;

mod images;
mod readers;

// What stands before the table: the numbers of states and labels, the start state and the set of final states.
#[derive(Clone, Copy)]
struct Head {
    states: Count,
    labels: Count,
    start: u8,
    finals: u64,
    ghost start_state: { start < states.number },
    ghost final_states: { finals < 2 ^ states.number },
}

// The most entries of a table: 64 labels for each of 64 states.
const MOST_ENTRIES: usize = 4096;

/// A pattern, always complete: its table has a row for each state, with a next state for each label; what lies past it is 0. Its memory is fixed,
/// since nothing here allocates and a pattern owns its table.
#[derive(Clone, Copy)]
pub struct Pattern {
    head: Head,
    table: [u8; MOST_ENTRIES],
    ghost complete: { (k : ℕ) → k < head.states.number * head.labels.number
        → slice_index table k < head.states.number },
}

impl Head {
    // The number of entries of the table.
    fn entries(&self) -> usize
        ensures value { result ≡ self.now.states.number * self.now.labels.number }
        ensures few { result ≤ most_entries }
    {
        self.states.number as usize * self.labels.number as usize
    }
}

impl Measure for Pattern {
    type Value = u64;

    ghost use Rattle.measures.specs.Patterns.{IsStateSet, pattern_lawful, pattern_meaning};

    ghost meaning = { pattern_meaning };

    ghost admits = { IsStateSet };

    ghost lawful = { pattern_lawful };

    fn labels(&self) -> u8 {
        self.head.labels.number
    }

    fn start(&self) -> u64 {
        insert(0, self.head.start)
    }

    fn step(&self, v: u64, l: Letter) -> u64 {
        if l < self.head.labels.number {
            self.image(v, l)
        } else {
            v
        }
    }

    fn join(&self, a: u64, b: u64) -> u64 {
        union(a, b)
    }
}

impl Judge for Pattern {
    ghost use Rattle.measures.specs.Patterns.{all_final, pattern_good, some_final};

    ghost good = { pattern_good };

    ghost some_of = { some_final };

    ghost all_of = { all_final };

    fn some(&self, v: u64) -> bool {
        intersects(v, self.head.finals)
    }

    fn all(&self, v: u64) -> bool {
        is_subset(v, self.head.finals)
    }
}
