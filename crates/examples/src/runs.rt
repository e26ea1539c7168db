//! Worked runs. The function is there for the theorems that its contract states, and does nothing.
ghost use Rattle.std.specs.Prelude.{ℕ, ◌<◌, ◌≤◌};
ghost use Rattle.examples.specs.WorkedRuns.{RunsAsWorked, words};
ghost use Rattle.measures.specs.Limits.{most_labels};
ghost use Rattle.measures.specs.Laws.{LawOfRuns};

/// - worked: the rules make of each worked run what is found of it;
/// - words: the law of runs holds under the measure of words, so what it answers are the words of the longest flows.
pub fn worked_runs()
    ensures worked { RunsAsWorked }
    ensures words { (labels : ℕ) → (0 < labels) × (labels ≤ most_labels) → LawOfRuns (words labels) }
{}
