//! The relabelling: any measure, stepped by the labels that a table gives for its own.
ghost use Rattle.std.specs.Prelude.{◌≡◌, ◌+◌, ◌<◌, ◌≤◌, length, Some, None, IfOk, MatchResult};
ghost use Rattle.measures.specs.Formats.{relabelling_head_fault, relabelling_head_size, relabelling_fault, relabelling_labels_in, entries_in, with_zeros};
ghost use Rattle.measures.specs.Limits.{most_labels};
ghost use Rattle.measures.specs.Relabellings.{IsRelabellingOf, inner_label, inner_of, inner_word, relabelling, relabelling_meaning, relabelling_size};
ghost use Rattle.measures.specs.RelabellingLaws.{relabelled_lawful};

use super::Measure;
use super::judges::Judge;
use super::refusals::{Fault, Refusal};
use super::sizes::{Count, MOST_LABELS};
use super::tables::{table, with_zeros};
use history::Letter;
use text::Cursor;

// The first byte of a relabelling.
const TAG: u8 = 0x30;

// The number of bytes before its entries: the tag and the count.
const HEAD: usize = 2;

// The inner label of each label; the first `count` entries are used. Its memory is fixed, since nothing here allocates.
#[derive(Clone, Copy)]
struct LabelTable {
    entries: [u8; MOST_LABELS as usize],
    count: Count,
}

/// An inner measure under other labels; over a judge it is a judge, of translated words.
#[derive(Clone, Copy)]
pub struct Relabelling<M: Measure> {
    table: LabelTable,
    inner: M,
}

impl LabelTable {
    // The entry of l, or 0 where that is none of the n inner labels; a relabelling that was read has no such entry.
    fn inner_label(&self, l: u8, n: u8) -> u8
        requires { l < self.now.count.number }
        ensures { result ≡ inner_label self.now.entries n l }
    {
        let entry = self.entries[l as usize];
        if entry < n { entry } else { 0 }
    }

    // The label count of the table where the cursor stands.
    fn read_count(cursor: Cursor<'_>) -> Result<Count, Fault>
        ensures { let b = cursor.entry.input.now in
            let at = cursor.entry.place in
            MatchResult result
            (λ n. (relabelling_head_fault b at ≡ None) × (n.number ≡ relabelling_labels_in b at)
            × (at + relabelling_head_size ≤ length b))
            (λ f. relabelling_head_fault b at ≡ Some f) }
    {
        match cursor.bytes() {
            Some([TAG]) => Err(Fault::at(Refusal::TableTooShort, cursor.input.len())),
            Some([TAG, count, ..]) => {
                Count::new(*count).ok_or(Fault::at(Refusal::LabelCount, cursor.place + 1))
            }
            _ => Err(Fault::at(Refusal::NotARelabelling, cursor.place)),
        }
    }

    // The table where the cursor stands.
    fn read(cursor: Cursor<'_>, n: u8) -> Result<LabelTable, Fault>
        ensures { let b = cursor.entry.input.now in
            let at = cursor.entry.place in
            MatchResult result
            (λ t. (relabelling_fault b at n ≡ None) × (t.count.number ≡ relabelling_labels_in b at)
            × (t.entries ≡ with_zeros most_labels (entries_in b at)))
            (λ f. relabelling_fault b at n ≡ Some f) }
    {
        let count = Self::read_count(cursor)?;
        let after = Cursor {
            place: cursor.place + HEAD,
            ..cursor
        };
        let entries = table(after, count.number as usize, n)?;
        Ok(LabelTable {
            entries: with_zeros(entries),
            count,
        })
    }
}

impl<M: Measure> Relabelling<M> {
    /// The relabelling to the labels of `inner` whose bytes begin where the cursor stands, with the fault of the first question that is answered no
    /// (22, 19, 16, 20), at its place in the whole input.
    pub fn read(cursor: Cursor<'_>, inner: M) -> Result<Relabelling<M>, Fault>
    where
        M: Drop,
        ensures answer { let b = cursor.entry.input.now in
            let at = cursor.entry.place in
            let fault = relabelling_fault b at (M.meaning inner).labels in
            MatchResult result (λ r. (fault ≡ None) × IsRelabellingOf b at inner r)
            (λ f. fault ≡ Some f) }
        ensures meaning { let b = cursor.entry.input.now in
            let at = cursor.entry.place in
            let entries = with_zeros most_labels (entries_in b at) in
            IfOk result (λ r. ⟦<Relabelling<M> as Measure>⟧.meaning r
            ≡ relabelling entries (relabelling_labels_in b at) (M.meaning inner)) }
    {
        let table = LabelTable::read(cursor, inner.labels())?;
        Ok(Relabelling { table, inner })
    }

    /// The number of bytes that the relabelling was read from.
    pub fn size(&self) -> usize
        ensures { result ≡ relabelling_size self.now }
    {
        HEAD + self.table.count.number as usize
    }
}

impl<M: Measure> Measure for Relabelling<M> {
    type Value = M::Value;

    ghost meaning = { λ r. relabelling_meaning M.Measure.meaning r };

    ghost admits = { λ r v. M.Measure.admits (inner_of r) v };

    ghost lawful = { λ r. relabelled_lawful M.Measure.meaning r (M.Measure.lawful (inner_of r)) };

    fn labels(&self) -> u8 {
        self.table.count.number
    }

    fn start(&self) -> M::Value {
        self.inner.start()
    }

    fn step(&self, v: M::Value, l: Letter) -> M::Value {
        if l < self.table.count.number {
            let to = self.table.inner_label(l, self.inner.labels());
            self.inner.step(v, to)
        } else {
            v
        }
    }

    fn join(&self, a: M::Value, b: M::Value) -> M::Value {
        self.inner.join(a, b)
    }
}

impl<M: Judge> Judge for Relabelling<M> {
    ghost good = { λ r w. M.Judge.good (inner_of r) (inner_word M.Measure.meaning r w) };

    ghost some_of = { λ r v. M.Judge.some_of (inner_of r) v };

    ghost all_of = { λ r v. M.Judge.all_of (inner_of r) v };

    fn some(&self, v: M::Value) -> bool {
        self.inner.some(v)
    }

    fn all(&self, v: M::Value) -> bool {
        self.inner.all(v)
    }
}
