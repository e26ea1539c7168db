//! The stamps of marks: for each unit, how many of its marks are the mark or before it.
ghost use Rattle.std.specs.Prelude.{◌≡◌, ℕ, ◌<◌, ◌&&◌, length, if◌then◌else◌, ◌==◌, nat_le, slice_index};
ghost use Rattle.history.specs.declared.precedence.Precedence.TheVariants.{Same, Precedes, Follows, Concurrent};
ghost use Rattle.history.specs.Precedence.{compare_answer, stamp_order};
ghost use Rattle.history.specs.Limits.{most_units};
ghost use Rattle.causality.specs.Comparing.{OrdersMarks};

use super::MAX_UNITS;
use history::{Clock, Precedence, Refusal};

/// The stamp of a mark, and the unit that made the mark.
#[derive(Clone, Copy, PartialEq, Eq, Debug)]
pub struct Stamp<'a> {
    pub clocks: &'a [Clock],
    pub unit: usize,
}

/// How the mark with stamp p stands to the mark with stamp q: the same, before it, after it, or neither. Refuses stamps that are not equally long,
/// or not from 1 to 16 long (12), and then a unit at or above that length (4). On the stamps of two marks of a run the answer is their causal
/// order (`order`).
pub fn compare(p: Stamp<'_>, q: Stamp<'_>) -> Result<Precedence, Refusal>
    ensures answer { let first = p.entry.clocks.now in
        let second = q.entry.clocks.now in
        result ≡ compare_answer first second p.entry.unit q.entry.unit }
    ensures order { let first = p.entry.clocks.now in
        let second = q.entry.clocks.now in
        OrdersMarks first second p.entry.unit q.entry.unit result }
{
    if !are_stamps(p.clocks.len(), q.clocks.len()) {
        return Err(Refusal::StampLength);
    }
    if p.unit >= p.clocks.len() || q.unit >= p.clocks.len() {
        return Err(Refusal::NoSuchUnit);
    }
    Ok(order_of(p, q))
}

// The order by what each stamp has at both units.
fn order_of(p: Stamp<'_>, q: Stamp<'_>) -> Precedence
    requires lengths { length p.clocks.now ≡ length q.clocks.now }
    requires first { p.unit < length p.clocks.now }
    requires second { q.unit < length p.clocks.now }
    ensures { let first = λ (w : ℕ). slice_index p.entry.clocks.now w in
        let second = λ (w : ℕ). slice_index q.entry.clocks.now w in
        result ≡ stamp_order first second p.entry.unit q.entry.unit }
{
    let same = p.unit == q.unit && p.clocks[p.unit] == q.clocks[p.unit];
    let precedes = p.clocks[p.unit] <= q.clocks[p.unit];
    let follows = q.clocks[q.unit] <= p.clocks[q.unit];
    first_of(same, precedes, follows)
}

// Whether stamps of these lengths can be compared.
fn are_stamps(p: usize, q: usize) -> bool
    ensures { result ≡ (p == q && (nat_le 1 p && nat_le p most_units)) }
{
    p == q && 1 <= p && p <= MAX_UNITS
}

// The first answer whose test is yes.
fn first_of(same: bool, precedes: bool, follows: bool) -> Precedence
    ensures { result ≡ (if same then Same
        else (if precedes then Precedes else (if follows then Follows else Concurrent))) }
{
    if same {
        Precedence::Same
    } else if precedes {
        Precedence::Precedes
    } else if follows {
        Precedence::Follows
    } else {
        Precedence::Concurrent
    }
}
