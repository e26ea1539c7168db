//! The flow count: how many flows end at a mark.
ghost use Rattle.std.specs.Prelude.{◌≡◌, IfOk, Some, None, MatchResult};
ghost use Rattle.measures.specs.Counts.{flow_count, MarksCounted};
ghost use Rattle.measures.specs.Refusals.{flow_count_refusal};

use super::Measure;
use super::refusals::Refusal;
use super::sizes::Count;
use history::Letter;

/// A flow count over some labels: the number of flows, up to 4,294,967,295.
#[derive(Clone, Copy)]
pub struct FlowCount {
    labels: Count,
}

impl FlowCount {
    /// A flow count over that many labels. Refuses a label count outside 1 to 64 (16). Whatever calls a board was handed, the value answered at a
    /// mark is the number of the longest flows that end there (`runs`).
    pub fn new(labels: u8) -> Result<FlowCount, Refusal>
        ensures answer { MatchResult result
            (λ m. (flow_count_refusal labels ≡ None)
            × (⟦<FlowCount as Measure>⟧.meaning m ≡ flow_count labels))
            (λ e. flow_count_refusal labels ≡ Some e) }
        ensures runs { IfOk result (λ m. MarksCounted (⟦<FlowCount as Measure>⟧.meaning m)) }
    {
        let labels = Count::new(labels).ok_or(Refusal::LabelCount)?;
        Ok(FlowCount { labels })
    }
}

impl Measure for FlowCount {
    type Value = u32;

    ghost use Rattle.measures.specs.Counts.{IsFlowCount, count_meaning, count_lawful};

    ghost meaning = { count_meaning };

    ghost admits = { λ _ v. IsFlowCount v };

    ghost lawful = { count_lawful };

    fn labels(&self) -> u8 {
        self.labels.number
    }

    fn start(&self) -> u32 {
        1
    }

    fn step(&self, v: u32, _l: Letter) -> u32 {
        v
    }

    fn join(&self, a: u32, b: u32) -> u32 {
        a.saturating_add(b)
    }
}
