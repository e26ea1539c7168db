//! The merge of a message's row into a unit's row, cell by cell.
ghost use Rattle.std.specs.Prelude.{◌≡◌, ◌+◌, ◌*◌, ◌<◌, ◌≤◌, length, slice_set};
ghost use Rattle.grid.specs.Grids.{LieWithin, with_cells};
ghost use Rattle.history.specs.Rows.{merged_cell};
ghost use Rattle.causality.specs.Merging.{cell_at, merged_row};

use grid::{RowPair, at_or, put};
use history::{Cell, Clock};

/// The cell at a place of clocks, flags and values; past an end the clock is 0, the flag no, and the value `start`. Three slices of their own,
/// since the caller lends each memory apart.
pub fn cell_at<V: Copy>(
    start: V,
    clocks: &[Clock],
    flags: &[bool],
    values: &[V],
    place: usize,
) -> Cell<V>
    ensures { result ≡ cell_at start clocks.now flags.now values.now place }
{
    Cell {
        clock: at_or(clocks, place, 0),
        flag: at_or(flags, place, false),
        value: at_or(values, place, start),
    }
}

/// A unit's cell merged with a message's: the one with the larger clock. At equal clocks both tell of one mark: the flag is yes only if
/// both are, and where it is no the value becomes `start`.
pub fn merge_cell<V: Copy>(start: V, own: Cell<V>, other: Cell<V>) -> Cell<V>
    ensures { result ≡ merged_cell start own other }
{
    if own.is_behind(other) {
        return other;
    }
    if other.is_behind(own) {
        return own;
    }
    let flag = own.flag && other.flag;
    Cell {
        clock: own.clock,
        flag,
        value: if flag { own.value } else { start },
    }
}

// Merges cell j of row `from` into cell j of row `to`; the other row's cell is taken out by value first.
#[tactic(auto, using(grid::proofs::Promises::put_at))]
fn merge_column<V: Copy>(
    start: V,
    clocks: &mut [Clock],
    flags: &mut [bool],
    values: &mut [V],
    rows: RowPair,
    j: usize,
)
    requires column { j < rows.width }
    requires clocks { LieWithin rows (length clocks.old) }
    requires flags { LieWithin rows (length flags.old) }
    requires values { LieWithin rows (length values.old) }
    ensures clocks { clocks.new ≡ slice_set clocks.old (rows.to * rows.width + j)
        (merged_row start clocks.old flags.old values.old rows j).clock }
    ensures flags { flags.new ≡ slice_set flags.old (rows.to * rows.width + j)
        (merged_row start clocks.old flags.old values.old rows j).flag }
    ensures values { values.new ≡ slice_set values.old (rows.to * rows.width + j)
        (merged_row start clocks.old flags.old values.old rows j).value }
{
    let other = cell_at(start, clocks, flags, values, rows.from * rows.width + j);
    let own = cell_at(start, clocks, flags, values, rows.to * rows.width + j);
    let merged = merge_cell(start, own, other);
    put(&mut clocks[rows.to * rows.width..], j, merged.clock);
    put(&mut flags[rows.to * rows.width..], j, merged.flag);
    put(&mut values[rows.to * rows.width..], j, merged.value);
}

// Merges row `from`, a message's, into row `to`, a unit's, the unit's own cell too. A loop over columns, since both rows lie in one lent
// slice and the other row's cell is taken out by value first.
pub(crate) fn merge_rows<V: Copy>(
    start: V,
    clocks: &mut [Clock],
    flags: &mut [bool],
    values: &mut [V],
    rows: RowPair,
)
    requires clocks { LieWithin rows (length clocks.old) }
    requires flags { LieWithin rows (length flags.old) }
    requires values { LieWithin rows (length values.old) }
    ensures clocks { let row = merged_row start clocks.old flags.old values.old rows in
        clocks.new ≡ with_cells clocks.old rows (λ j. (row j).clock) rows.width }
    ensures flags { let row = merged_row start clocks.old flags.old values.old rows in
        flags.new ≡ with_cells flags.old rows (λ j. (row j).flag) rows.width }
    ensures values { let row = merged_row start clocks.old flags.old values.old rows in
        values.new ≡ with_cells values.old rows (λ j. (row j).value) rows.width }
{
    for j in 0..rows.width {
        merge_column(start, clocks, flags, values, rows, j);
    }
}
