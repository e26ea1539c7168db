//! The report on an input: a pattern, a relabelling and a recording.
ghost use Rattle.std.specs.Prelude.{◌≡◌, ◌+◌, ◌*◌, ◌≤◌, ◌++◌, length, min, IfOk, IfSome, OnOk, Some, None, MatchResult};
ghost use Rattle.std.specs.Io.KnownBytes.{Appends};
ghost use Rattle.reports.specs.Laws.{LawOfReports};
ghost use Rattle.reports.specs.Reports.{front_fault, recording_at, judge_in, some_in, all_in, report_on, text_by, end_by};
ghost use Rattle.text.specs.Inputs.{most_bytes};

use super::faults::Fault;
use super::lines::{MOST_LINE, Page, TEXT_PER_BYTE, push_fault, push_header, push_left};
use super::recordings::transcribe;
use measures::{Judge, Measure, Pattern, Relabelling};
use std::alloc::{AllocError, Global};
use std::io;
use std::io::{Read, Write};
use text::{Cursor, MOST_BYTES, read_input};

// The judge at the front of an input that is not too long, its pattern under its relabelling; and the byte where the recording begins.
fn read(input: &[u8]) -> Result<(Relabelling<Pattern>, usize), Fault>
    ensures answer { MatchResult result
        (λ r. (front_fault input.now ≡ None) × (r.1 ≡ recording_at input.now))
        (λ f. front_fault input.now ≡ Some f) }
    ensures within { IfOk result (λ r. r.1 ≤ length input.now) }
    ensures judge { IfOk result (λ r.
        (⟦<Relabelling<Pattern> as Measure>⟧.meaning r.0 ≡ judge_in input.now)
        × (⟦<Relabelling<Pattern> as Judge>⟧.some_of r.0 ≡ some_in input.now)
        × (⟦<Relabelling<Pattern> as Judge>⟧.all_of r.0 ≡ all_in input.now)) }
{
    if input.len() > MOST_BYTES {
        return Err(Fault::TooLong);
    }
    let pattern = Pattern::read(input).map_err(|fault| Fault::Pattern(fault))?;
    let place = pattern.size();
    let after = Cursor { input, place };
    let judge = Relabelling::read(after, pattern).map_err(|fault| Fault::Relabelling(fault))?;
    let from = place + judge.size();
    Ok((judge, from))
}

// Writes the header and the lines of the marks. Answers how many messages are left on their way.
fn write(page: &mut Page, input: &[u8]) -> Result<usize, Fault>
    requires { length input.now ≤ most_bytes
        → length page.old.text + MOST_LINE + TEXT_PER_BYTE * length input.now ≤ page.old.room }
    ensures text { page.new.text ≡ page.old.text ++ text_by input.now (front_fault input.now) }
    ensures end { result ≡ end_by input.now (front_fault input.now) }
    ensures long { length page.new.text
        ≤ length page.old.text + MOST_LINE + TEXT_PER_BYTE * min (length input.now) most_bytes }
    ensures room { page.old.room ≤ page.new.room }
{
    let (judge, from) = read(input)?;
    push_header(page);
    Ok(transcribe(page, judge, &input[from..], from)?)
}

/// The report on an input: a line for each mark, and how the recording ends. It fails only for want of memory.
#[tactic(auto, using(crate::proofs::ReportLaw::law_of_reports))]
pub fn report(heap: Global, input: &[u8]) -> Result<Vec<u8>, AllocError>
    ensures report { IfOk result (λ out. out.items ≡ report_on input.now) }
    ensures law { LawOfReports }
{
    // the header, the lines of an input that is read, and the last line
    let room = TEXT_PER_BYTE * input.len().min(MOST_BYTES) + 2 * MOST_LINE;
    let mut page = Page::with_room(heap, room)?;
    match write(&mut page, input) {
        Ok(left) => push_left(&mut page, left),
        Err(fault) => push_fault(&mut page, fault),
    }
    Ok(page.into_text())
}

/// Reads an input and writes the report on it. Where it succeeds, and what the reader has is known, the report on all of that was written.
pub fn answer<R: Read + Drop, W: Write>(heap: Global, reader: R, writer: &mut W) -> io::Result<()>
    ensures { OnOk result (IfSome (R.remaining reader) (λ input.
        Appends (W.contents writer.old) (W.contents writer.new) (report_on input))) }
{
    let input = read_input(heap, reader)?;
    let out = report(heap, &input)?;
    writer.write_all(&out)
}
