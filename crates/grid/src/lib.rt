//! Rows of cells, one after another, in memory that the caller lends: row r begins at cell r * width.
//! One grid type serves clocks, flags and values of every kind. Stands on nothing here.
#![tactic(auto)]

ghost use Rattle.std.specs.Prelude.{◌≡◌, ◌+◌, ◌*◌, ◌≤◌, length, replicate, IsTrue, false, MatchOption, slice_index_or, slice_set};
ghost use Rattle.grid.specs.Rows.{row as row_of, with_row};
ghost use Rattle.grid.specs.Grids.{has_row, row_in, cell_answer, with_first_rows, with_row_copy, LieWithin, SameLoan};

/// Rows of `width` cells each, in lent cells.
#[derive(Drop)]
pub struct Grid<'a, T> {
    /// All lent cells, also those after the last whole row.
    pub cells: &'a mut [T],
    /// The number of a row's cells.
    pub width: usize,
}

/// Two rows of `width` cells, one that is read and one that is written.
/// That both lie within a memory is no part of the type: it speaks of memory that the caller lends apart.
#[derive(Clone, Copy, PartialEq, Eq, Debug)]
pub struct RowPair {
    /// The number of a row's cells.
    pub width: usize,
    /// The number of the row that is read.
    pub from: usize,
    /// The number of the row that is written.
    pub to: usize,
}

impl<'a, T> Grid<'a, T> {
    /// A grid of rows of `width` cells in the lent cells. Cells after the last whole row are in no row.
    pub fn new(cells: &'a mut [T], width: usize) -> Grid<'a, T>
        ensures cells { result.cells.now ≡ cells.old }
        ensures width { result.width ≡ width }
        ensures lender { result.cells.ghost_name ≡ cells.entry.ghost_name }
    {
        Grid { cells, width }
    }
}

impl<T: Copy> Grid<'_, T> {
    /// Whether all of a row lies within the cells.
    pub fn has_row(&self, row: usize) -> bool
        ensures { result ≡ has_row self.now row }
    {
        let Some(start) = row.checked_mul(self.width) else {
            return false;
        };
        start <= self.cells.len() && self.width <= self.cells.len() - start
    }

    /// One cell, by value; none where the row or the column is not there.
    pub fn cell(&self, row: usize, column: usize) -> Option<T>
        ensures { result ≡ cell_answer self.now row column }
    {
        if self.has_row(row) && column < self.width {
            self.cells.get(row * self.width + column).copied()
        } else {
            None
        }
    }

    /// The cells of a row, lent to be read; none where the row is not there.
    pub fn row(&self, row: usize) -> Option<&[T]>
        ensures { MatchOption result
            (has_row self.now row ≡ false)
            (λ cells. IsTrue (has_row self.now row) × (cells.now ≡ row_in self.now row)) }
    {
        if !self.has_row(row) {
            return None;
        }
        let start = row * self.width;
        Some(&self.cells[start..start + self.width])
    }

    /// Sets each cell of the first rows. Where they are not all there, nothing changes.
    pub fn fill_rows(&mut self, rows: usize, v: T)
        ensures cells { self.new.cells.now ≡ with_first_rows self.old rows v }
        ensures loan { SameLoan self.old self.new }
    {
        let Some(count) = rows.checked_mul(self.width) else {
            return;
        };
        if count <= self.cells.len() {
            fill(&mut self.cells[0..count], v);
        }
    }

    /// Copies one row to another. Where one of them is not there, nothing changes.
    pub fn copy_row(&mut self, from: usize, to: usize)
        ensures cells { self.new.cells.now ≡ with_row_copy self.old from to }
        ensures loan { SameLoan self.old self.new }
    {
        if self.has_row(from) && self.has_row(to) {
            let width = self.width;
            copy(self.cells, RowPair { width, from, to });
        }
    }
}

/// Sets one cell of a part. Where the place is past its end, nothing changes.
// A write through `get_mut` doesn't prove: its contract says nothing of the slice after the loan.
#[tactic(auto, using(std::proofs::lemmas::List::set_past))]
pub fn put<T: Copy>(part: &mut [T], j: usize, v: T)
    ensures { part.new ≡ slice_set part.old j v }
{
    if j < part.len() {
        part[j] = v;
    }
}

/// The cell at a place, by value, or `other` past the end.
pub fn at_or<T: Copy>(cells: &[T], i: usize, other: T) -> T
    ensures { result ≡ slice_index_or cells.now i other }
{
    cells.get(i).copied().unwrap_or(other)
}

/// Sets each cell of a part.
// The slice's own `fill` asks for a clone that cannot fail, which `Copy` does not say.
pub fn fill<T: Copy>(part: &mut [T], v: T)
    ensures { part.new ≡ replicate (length part.old) v }
{
    for cell in part.iter_mut() {
        *cell = v;
    }
}

// Copies the cells of the row that is read to the row that is written.
// Both lie in one memory, so each cell is taken out by value first.
fn copy<T: Copy>(cells: &mut [T], rows: RowPair)
    requires { LieWithin rows (length cells.old) }
    ensures { let from = row_of cells.old rows.width rows.from in
        cells.new ≡ with_row cells.old rows.width rows.to from }
{
    for j in 0..rows.width {
        let v = cells[rows.from * rows.width + j];
        put(&mut cells[rows.to * rows.width..], j, v);
    }
}
