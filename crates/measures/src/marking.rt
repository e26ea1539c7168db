//! What a mark is worth: the values of the flows that go on through it.
ghost use Rattle.std.specs.Prelude.{◌≡◌, ℕ, ◌^◌, ◌<◌, Some};
ghost use Rattle.measures.specs.Worths.{plus, flagged_join, worth};
ghost use Rattle.history.specs.declared.cells.Cell.{Cell};
ghost use Rattle.causality.specs.Payloads.{Reads};
ghost use Rattle.measures.specs.Calls.{flagged_by};

use super::Measure;
use bitset::split_lowest;
use grid::at_or;
use history::Letter;

// One value more, joined to those before it.
fn with_joined<M: Measure>(m: &M, before: Option<M::Value>, v: M::Value) -> M::Value
    ensures { Some result ≡ plus (M.meaning m.now) before (Some v) }
{
    match before {
        None => v,
        Some(all) => m.join(all, v),
    }
}

// The values of the members of a set, joined in rising order, or none of the empty set. A value that is not there counts as the start.
fn gather<M: Measure>(m: &M, set: u64, values: &[M::Value]) -> Option<M::Value>
    ensures { let row = flagged_by set (M.meaning m.now).start values.now in
        (n : ℕ) → set < 2 ^ n → result ≡ flagged_join (M.meaning m.now) row n }
{
    let mut rest = set;
    let mut all = None;
    while let Some((j, others)) = split_lowest(rest) {
        all = Some(with_joined(m, all, at_or(values, j as usize, m.start())));
        rest = others;
    }
    all
}

/// What a mark with that letter is worth, by the set of the units that have an immediate predecessor of it and the values of its unit's row before
/// it: the values of the set's members, joined in rising order, or the start if there are none, and then stepped by the letter. It is the worth of
/// every row that has these flags and values, for any unit.
pub fn mark_value<M: Measure>(m: &M, predecessors: u64, values: &[M::Value], l: Letter) -> M::Value
    ensures { (n : ℕ) (r : ℕ → Cell M.Value)
        → Reads (M.meaning m.now).start n r predecessors values.now
        → (u : ℕ) → result ≡ worth (M.meaning m.now) n r u l }
{
    let before = gather(m, predecessors, values).unwrap_or(m.start());
    m.step(before, l)
}
