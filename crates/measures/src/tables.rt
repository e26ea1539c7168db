//! Tables of bytes: read from an input, each entry below a bound.
ghost use Rattle.std.specs.Prelude.{◌≡◌, ℕ, ◌<◌, ◌≤◌, length, take, drop, Some, None, MatchResult, slice_index};
ghost use Rattle.measures.specs.Formats.{first_over, table_fault, with_zeros};

use super::refusals::{Fault, Refusal};
use text::Cursor;

// The first place whose entry is not below the bound, or none where all are.
fn first_too_large(table: &[u8], bound: u8) -> Option<usize>
    ensures { result ≡ first_over bound table.now }
{
    for (i, entry) in table.iter().enumerate() {
        if *entry >= bound {
            return Some(i);
        }
    }
    None
}

// The table of `count` entries where the cursor stands; a fault in it has its place in the whole input.
pub(crate) fn table<'a>(cursor: Cursor<'a>, count: usize, bound: u8) -> Result<&'a [u8], Fault>
    ensures { let fault = table_fault cursor.entry.input.now cursor.entry.place count bound in
        MatchResult result
        (λ t. (fault ≡ None) × (t.now ≡ take count (drop cursor.entry.place cursor.entry.input.now))
        × (length t.now ≡ count) × ((k : ℕ) → k < count → slice_index t.now k < bound))
        (λ f. fault ≡ Some f) }
{
    let Some(table) = cursor.first(count) else {
        return Err(Fault::at(Refusal::TableTooShort, cursor.input.len()));
    };
    match first_too_large(table, bound) {
        None => Ok(table),
        Some(i) => Err(Fault::at(Refusal::EntryTooLarge, cursor.place + i)),
    }
}

// The entries, and zeros after them.
pub(crate) fn with_zeros<const N: usize>(entries: &[u8]) -> [u8; N]
    requires { length entries.now ≤ N }
    ensures { result ≡ with_zeros N entries.now }
{
    let mut all = [0; N];
    all[..entries.len()].copy_from_slice(entries);
    all
}
