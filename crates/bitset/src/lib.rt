//! Sets of the numbers 0 to 63, each one word: number q is in the set exactly when bit q of the word is 1.
//! The states of patterns and the units of predecessors are such sets. Stands on nothing here.
#![tactic(auto)]

ghost use Rattle.std.specs.Prelude.{◌≡◌, ℕ, ◌+◌, ◌^◌, ◌<◌, ◌≤◌, ◌&&◌, ◌||◌, false, if◌then◌else◌, length, replicate, ◌↔◌, IsTrue, MatchOption, bit_or, nat_lt, slice_index_or};
ghost use Rattle.bitset.specs.Sets.{Member, Lowest, Without, has, meets, within, those, positions_in};

/// The set with `q` added; a number from 64 on is not.
pub fn insert(set: u64, q: u8) -> u64
    ensures { result ≡ (if nat_lt q 64 then bit_or set (2 ^ q) else set) }
{
    if q < 64 { set | 1 << q } else { set }
}

/// The members of the set below `n`.
pub fn below(set: u64, n: u8) -> u64
    ensures { (p : ℕ) → has result p ≡ (has set p && nat_lt p n) }
{
    if n < 64 { set & (1 << n) - 1 } else { set }
}

/// The lowest member of the set, and the set of the others; none of the empty set.
pub fn split_lowest(set: u64) -> Option<(u8, u64)>
    ensures { MatchOption result (set ≡ 0) (λ s. Lowest s.0 set × Without s.0 set s.1) }
{
    if set == 0 {
        None
    } else {
        Some((set.trailing_zeros() as u8, set & set - 1))
    }
}

/// The numbers in either set.
#[tactic(auto, using(crate::proofs::MemberFacts::has_or))]
pub fn union(a: u64, b: u64) -> u64
    ensures value { result ≡ bit_or a b }
    ensures members { (q : ℕ) → has result q ≡ (has a q || has b q) }
{
    a | b
}

/// Whether some number is in both sets.
#[tactic(auto, using(crate::proofs::MemberFacts::meets_members))]
pub fn intersects(a: u64, b: u64) -> bool
    ensures value { result ≡ meets a b }
    ensures members { IsTrue result ↔ ((q : ℕ) × Member q a × Member q b) }
{
    a & b != 0
}

/// Whether each number of the first set is in the second.
#[tactic(auto, using(crate::proofs::MemberFacts::within_members))]
pub fn is_subset(a: u64, b: u64) -> bool
    ensures value { result ≡ within a b }
    ensures members { IsTrue result ↔ ((q : ℕ) → Member q a → Member q b) }
{
    a & b == a
}

/// Whether each number of the set is below `n`.
#[tactic(auto, using(crate::proofs::MemberFacts::shifted_below, crate::proofs::MemberFacts::below_members))]
pub fn is_below(set: u64, n: u8) -> bool
    ensures value { result ≡ nat_lt set (2 ^ n) }
    ensures members { IsTrue result ↔ ((q : ℕ) → Member q set → q < n) }
{
    n >= 64 || set >> n == 0
}

/// Takes flags as a set: the places below 64 whose flag is yes.
/// All flags become no, those from 64 on too.
pub fn take_positions(flags: &mut [bool]) -> u64
    ensures positions { result ≡ positions_in flags.old }
    ensures flags { flags.new ≡ replicate (length flags.old) false }
{
    let mut few = flags.len();
    if few > 64 {
        flags[64..].fill(false);
        few = 64;
    }
    sweep(&mut flags[..few])
}

// Takes at most 64 flags from the last to the first, eight at a time while there are so many; all become no.
fn sweep(flags: &mut [bool]) -> u64
    requires { length flags.old ≤ 64 }
    ensures positions { result ≡ positions_in flags.old }
    ensures flags { flags.new ≡ replicate (length flags.old) false }
{
    let mut set = 0;
    let mut q = flags.len();
    while q >= 8 {
        q -= 8;
        set = set << 8 | eight(flags, q);
        flags[q..q + 8].fill(false);
    }
    while q > 0 {
        q -= 1;
        set = set << 1 | u64::from(flags[q]);
        flags[q] = false;
    }
    set
}

// A word with the bits 7, 14, .., 56. Times each of these, the bits 0, 8, .., 56 of another word fall on 64 different
// places, so nothing is carried. Bit 8 * i times bit 56 - 7 * i falls on bit 56 + i, and nothing else falls there.
const GATHER: u64 = 0x0102_0408_1020_4080;

// The eight flags from place q on, as a set of the numbers 0 to 7. As the bytes of a word, flag i is its bit 8 * i.
// The product with `GATHER` has it as bit 56 + i, so its highest byte has the eight flags side by side.
fn eight(flags: &[bool], q: usize) -> u64
    requires { q + 8 ≤ length flags.now }
    ensures { result ≡ those (λ i. slice_index_or flags.now (q + i) false) 8 }
{
    let bytes = [
        u8::from(flags[q]),
        u8::from(flags[q + 1]),
        u8::from(flags[q + 2]),
        u8::from(flags[q + 3]),
        u8::from(flags[q + 4]),
        u8::from(flags[q + 5]),
        u8::from(flags[q + 6]),
        u8::from(flags[q + 7]),
    ];
    u64::from_le_bytes(bytes).wrapping_mul(GATHER) >> 56
}
