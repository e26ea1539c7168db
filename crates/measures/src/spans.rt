//! The span: the numbers of marks of the shortest and of the longest flow, judged by a limit.
ghost use Rattle.std.specs.Prelude.{◌≡◌, ◌≤◌, IfOk, Some, None, MatchResult};
ghost use Rattle.measures.specs.Limits.{most_limit};
ghost use Rattle.measures.specs.Refusals.{span_refusal};

use super::Measure;
use super::judges::Judge;
use super::refusals::Refusal;
use super::sizes::Count;
use history::Letter;

/// The numbers of marks of the shortest and of the longest flow, up to 65,535 each.
#[derive(Clone, Copy, PartialEq, Eq, Default, Debug)]
pub struct Lengths {
    pub shortest: u16,
    pub longest: u16,
}

// The largest limit of a span: it lies below the cap of the lengths, so the capped lengths decide it.
const MOST_LIMIT: u16 = 65534;

/// A span with a limit: a word is good if it has at most so many labels.
#[derive(Clone, Copy)]
pub struct Span {
    labels: Count,
    limit: u16,
    ghost limited: { limit ≤ most_limit },
}

impl Span {
    ghost use Rattle.measures.specs.Spans.{IsSpan, MarksSpanned};

    /// A span over that many labels, judged by that limit. Refuses a label count outside 1 to 64 (16), and then a limit above 65,534 (21). Whatever
    /// calls a board was handed, the value answered at a mark has the numbers of marks of the shortest and of the longest of the flows that end there
    /// (`runs`).
    pub fn new(labels: u8, limit: u16) -> Result<Span, Refusal>
        ensures answer { MatchResult result
            (λ m. (span_refusal labels limit ≡ None)
            × IsSpan labels limit (⟦<Span as Measure>⟧.meaning m) (⟦<Span as Judge>⟧.some_of m)
            (⟦<Span as Judge>⟧.all_of m) (⟦<Span as Judge>⟧.good m))
            (λ e. span_refusal labels limit ≡ Some e) }
        ensures runs { IfOk result (λ m. MarksSpanned (⟦<Span as Measure>⟧.meaning m)) }
    {
        let labels = Count::new(labels).ok_or(Refusal::LabelCount)?;
        if limit > MOST_LIMIT {
            return Err(Refusal::SpanLimit);
        }
        Ok(Span { labels, limit })
    }
}

impl Measure for Span {
    type Value = Lengths;

    ghost use Rattle.measures.specs.Spans.{AreLengths, span_meaning, span_measure_lawful};

    ghost meaning = { span_meaning };

    ghost admits = { λ _ v. AreLengths v };

    ghost lawful = { span_measure_lawful };

    fn labels(&self) -> u8 {
        self.labels.number
    }

    fn start(&self) -> Lengths {
        Lengths::default()
    }

    fn step(&self, v: Lengths, l: Letter) -> Lengths {
        if l < self.labels.number {
            Lengths {
                shortest: v.shortest.saturating_add(1),
                longest: v.longest.saturating_add(1),
            }
        } else {
            v
        }
    }

    fn join(&self, a: Lengths, b: Lengths) -> Lengths {
        let shortest = a.shortest.min(b.shortest);
        let longest = a.longest.max(b.longest);
        Lengths { shortest, longest }
    }
}

impl Judge for Span {
    ghost use Rattle.measures.specs.Spans.{longest_within, shortest_within, span_good};

    ghost good = { span_good };

    ghost some_of = { shortest_within };

    ghost all_of = { longest_within };

    fn some(&self, v: Lengths) -> bool {
        v.shortest <= self.limit
    }

    fn all(&self, v: Lengths) -> bool {
        v.longest <= self.limit
    }
}
