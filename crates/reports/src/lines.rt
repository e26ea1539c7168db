//! The lines of a report, each written where it stands, after those before it.
ghost use Rattle.std.specs.Prelude.{◌≡◌, ◌+◌, ◌≤◌, [], ◌++◌, length, take, IfOk, vec_capacity};
ghost use Rattle.reports.specs.Lines.{mark_text, left_text, fault_text, header};
ghost use Rattle.text.specs.Lines.{line_of};
ghost use Rattle.reports.specs.declared.lines.TheConstants.{MOST_LINE};

use super::buffers::{put_bit, put_byte, put_decimal, put_hex, put_text};
use super::faults::Fault;
use history::Clock;
use std::alloc::{AllocError, Global};
use std::marker::Model;

// The longest line is a mark's: three numbers, each counted as 20 digits, 16 hexadecimal digits, and 8 more bytes.
pub(crate) const MOST_LINE: usize = 84;

// The most bytes of text for each byte of a recording: a mark has a line, and its call three bytes.
pub(crate) const TEXT_PER_BYTE: usize = 28;

// How many bytes are made ready for lines at a time.
const STEP: usize = 1024;

// The text of a report so far, the first `len` of the bytes that are ready, in memory that has room for the whole.
#[derive(Drop)]
pub(crate) struct Page {
    bytes: Vec<u8>,
    len: usize,
}

impl Model for Page {
    ghost use Rattle.std.specs.Prelude.{◌≤◌, length, take, vec_capacity};
    ghost use Rattle.reports.specs.Pages.{PageText};

    ghost Value = { PageText };

    ghost view = { λ page.
        record { text = take page.len page.bytes.items; room = vec_capacity page.bytes } };

    ghost invariant = { λ page. page.len ≤ length page.bytes.items };
}

impl Page {
    // No text, and memory for so many bytes.
    pub(crate) fn with_room(heap: Global, room: usize) -> Result<Page, AllocError>
        ensures { IfOk result (λ page. (page.text ≡ []) × (page.room ≡ room)) }
    {
        Ok(Page {
            bytes: Vec::with_capacity(heap, room)?,
            len: 0,
        })
    }

    // The text.
    pub(crate) fn into_text(self) -> Vec<u8>
        ensures { result.items ≡ self.text }
    {
        let Page { mut bytes, len } = self;
        bytes.truncate(len);
        bytes
    }
}

// What the line of a mark tells.
#[derive(Clone, Copy, PartialEq, Eq, Debug)]
pub(crate) struct MarkLine {
    pub(crate) unit: usize,
    pub(crate) clock: Clock,
    pub(crate) predecessors: u64,
    pub(crate) states: u64,
    pub(crate) some: bool,
    pub(crate) all: bool,
}

// Puts the line of a mark.
#[inline(always)]
fn put_mark(bytes: &mut [u8], at: usize, mark: MarkLine) -> usize
    requires { at + MOST_LINE ≤ length bytes.old }
    ensures text { take result bytes.new ≡ take at bytes.old ++ line_of (mark_text mark) }
    ensures short { result ≤ at + MOST_LINE }
{
    let at = put_decimal(bytes, at, mark.unit as u64);
    let at = put_byte(bytes, at, b' ');
    let at = put_decimal(bytes, at, u64::from(mark.clock));
    let at = put_byte(bytes, at, b' ');
    let at = put_decimal(bytes, at, mark.predecessors);
    let at = put_byte(bytes, at, b' ');
    let at = put_hex(bytes, at, mark.states);
    let at = put_byte(bytes, at, b' ');
    let at = put_bit(bytes, at, mark.some);
    let at = put_byte(bytes, at, b' ');
    let at = put_bit(bytes, at, mark.all);
    put_byte(bytes, at, b'\n')
}

// Puts the line of how many messages are left.
fn put_left(bytes: &mut [u8], at: usize, count: usize) -> usize
    requires { at + MOST_LINE ≤ length bytes.old }
    ensures text { take result bytes.new ≡ take at bytes.old ++ line_of (left_text count) }
    ensures short { result ≤ at + MOST_LINE }
{
    let at = put_text(bytes, at, b"left ");
    let at = put_decimal(bytes, at, count as u64);
    put_byte(bytes, at, b'\n')
}

// Puts the line of a fault.
fn put_fault(bytes: &mut [u8], at: usize, fault: Fault) -> usize
    requires { at + MOST_LINE ≤ length bytes.old }
    ensures text { take result bytes.new ≡ take at bytes.old ++ line_of (fault_text fault) }
    ensures short { result ≤ at + MOST_LINE }
{
    let at = put_text(bytes, at, b"fault ");
    let at = put_byte(bytes, at, fault.layer());
    let at = put_byte(bytes, at, b' ');
    let at = put_decimal(bytes, at, u64::from(fault.number()));
    let at = put_byte(bytes, at, b' ');
    let at = put_decimal(bytes, at, fault.place() as u64);
    put_byte(bytes, at, b'\n')
}

// Makes bytes ready for a line after the first `len`, where they are not, of memory that is there: so `resize` cannot fail, and `unwrap` is proved.
#[inline(always)]
fn make_ready(bytes: &mut Vec<u8>, len: usize)
    requires { (len ≤ length bytes.old.items) × (len + MOST_LINE ≤ vec_capacity bytes.old) }
    ensures text { take len bytes.new.items ≡ take len bytes.old.items }
    ensures ready { len + MOST_LINE ≤ length bytes.new.items }
    ensures memory { vec_capacity bytes.old ≤ vec_capacity bytes.new }
{
    if bytes.len() - len < MOST_LINE {
        let end = bytes.len().saturating_add(STEP).min(bytes.capacity());
        bytes.resize(end, 0).unwrap();
    }
}

// Appends the line of a mark.
#[inline(always)]
pub(crate) fn push_mark(page: &mut Page, mark: MarkLine)
    requires { length page.old.text + MOST_LINE ≤ page.old.room }
    ensures text { page.new.text ≡ page.old.text ++ line_of (mark_text mark) }
    ensures long { length page.new.text ≤ length page.old.text + MOST_LINE }
    ensures room { page.old.room ≤ page.new.room }
{
    make_ready(&mut page.bytes, page.len);
    page.len = put_mark(&mut page.bytes, page.len, mark);
}

// Appends the line of how many messages are left.
pub(crate) fn push_left(page: &mut Page, count: usize)
    requires { length page.old.text + MOST_LINE ≤ page.old.room }
    ensures { page.new.text ≡ page.old.text ++ line_of (left_text count) }
{
    make_ready(&mut page.bytes, page.len);
    page.len = put_left(&mut page.bytes, page.len, count);
}

// Appends the line of a fault.
pub(crate) fn push_fault(page: &mut Page, fault: Fault)
    requires { length page.old.text + MOST_LINE ≤ page.old.room }
    ensures { page.new.text ≡ page.old.text ++ line_of (fault_text fault) }
{
    make_ready(&mut page.bytes, page.len);
    page.len = put_fault(&mut page.bytes, page.len, fault);
}

// Appends the header.
pub(crate) fn push_header(page: &mut Page)
    requires { length page.old.text + MOST_LINE ≤ page.old.room }
    ensures text { page.new.text ≡ page.old.text ++ header }
    ensures long { length page.new.text ≤ length page.old.text + MOST_LINE }
    ensures room { page.old.room ≤ page.new.room }
{
    make_ready(&mut page.bytes, page.len);
    page.len = put_text(
        &mut page.bytes,
        page.len,
        b"unit mark preds states some all\n",
    );
}
