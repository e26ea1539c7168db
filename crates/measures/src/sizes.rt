//! Numbers of states and of labels.
ghost use Rattle.std.specs.Prelude.{◌≡◌, ◌<◌, ◌≤◌, Some, None, MatchOption, true, false};
ghost use Rattle.measures.specs.Limits.{most_labels};
ghost use Rattle.measures.specs.Refusals.{is_count};

/// The most states of a pattern, and the most labels of a measure.
pub const MOST_LABELS: u8 = 64;

// A number of states or of labels, from 1 to 64.
#[derive(Clone, Copy)]
pub(crate) struct Count {
    pub(crate) number: u8,
    ghost in_range: { (0 < number) × (number ≤ most_labels) },
}

impl Count {
    // The number as a count, or none outside 1 to 64. No `TryFrom`: states and labels have a refusal each, which the caller knows.
    pub(crate) fn new(number: u8) -> Option<Count>
        ensures { MatchOption result (is_count number ≡ false)
            (λ n. (is_count number ≡ true) × (n.number ≡ number)) }
    {
        match number {
            1..=MOST_LABELS => Some(Count { number }),
            _ => None,
        }
    }
}
