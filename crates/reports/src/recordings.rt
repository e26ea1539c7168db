//! A recording, read command by command and handed to a board.
ghost use Rattle.std.specs.Prelude.{◌≡◌, ◌+◌, ◌*◌, ◌^◌, ◌<◌, ◌≤◌, true, length};
ghost use Rattle.causality.specs.Boards.{has_room, memory, payload_of, setup_of};
ghost use Rattle.reports.specs.Recordings.{transcript};
ghost use Rattle.reports.specs.Steps.{AnswersCall, EndedOn, Wrote, WroteOn, judged_line, result_with_place, result_with_reason};
ghost use Rattle.reports.specs.declared.lines.TheConstants.{TEXT_PER_BYTE};

use super::commands::{Command, MAKING_SIZE, first_command};
use super::faults::{Reason, RecordingFault};
use super::lines::{MarkLine, Page, push_mark};
use causality::{Board, MAX_MESSAGES, MAX_UNITS};
use grid::Grid;
use history::{Answer, Call, Clock, Post, Refusal};
use measures::{Judge, JudgedValue, Measured, hand_judged};

// The most cells of a grid: a row for each unit and for each message, with a cell for each unit.
const MOST_CELLS: usize = (MAX_UNITS + MAX_MESSAGES) * MAX_UNITS;

// The line of what a unit's call is answered, if it has one: a mark's.
fn line_of_answer(unit: usize, answer: Answer<JudgedValue<u64>>) -> Option<MarkLine>
    ensures { result ≡ judged_line unit answer }
{
    match answer {
        Answer::Sent(_) | Answer::Received(_) => None,
        Answer::Marked(mark) => Some(MarkLine {
            unit,
            clock: mark.clock,
            predecessors: mark.predecessors,
            states: mark.value.value,
            some: mark.value.verdict.some,
            all: mark.value.verdict.all,
        }),
    }
}

// What was read or done, or why the recording breaks off at a byte of the input.
fn with_place<T>(done: Result<T, Reason>, place: usize) -> Result<T, RecordingFault>
    ensures { result ≡ result_with_place done place }
{
    done.map_err(|reason| RecordingFault { reason, place })
}

// What a board answers, or its refusal as the reason why the recording breaks off.
fn with_reason<T>(answer: Result<T, Refusal>) -> Result<T, Reason>
    ensures { result ≡ result_with_reason answer }
{
    Ok(answer?)
}

// Hands one call to a board. Answers the line of a mark.
fn hand_for_line<J: Judge<Value = u64>>(
    board: &Board<Measured<J>>,
    clocks: &mut Grid<'_, Clock>,
    flags: &mut Grid<'_, bool>,
    values: &mut Grid<'_, u64>,
    posts: &mut [Post],
    call: Call,
) -> Result<Option<MarkLine>, Reason>
    ensures { let judge = (payload_of board.now).measure in
        AnswersCall (J.Judge.some_of judge) (J.Judge.all_of judge) (setup_of board.now) call
        (memory clocks.old flags.old values.old posts.old)
        (memory clocks.new flags.new values.new posts.new) result }
{
    let answer = hand_judged(board, clocks, flags, values, posts, call)?;
    Ok(line_of_answer(call.unit, answer))
}

// How a recording ends whose end stands at a byte of the input: nothing may come after it. Answers how many messages are left on their way.
fn close<J: Judge<Value = u64>>(
    board: &Board<Measured<J>>,
    clocks: &Grid<'_, Clock>,
    flags: &Grid<'_, bool>,
    values: &Grid<'_, u64>,
    posts: &[Post],
    after: &[u8],
    place: usize,
) -> Result<usize, RecordingFault>
    requires room { let b = setup_of board.now in
        has_room b.units b.messages (memory clocks.now flags.now values.now posts.now) ≡ true }
    requires place { place + 1 < 2 ^ 64 }
    ensures { let b = setup_of board.now in
        EndedOn J.Measure.meaning (payload_of board.now).measure b.units b.messages
        (memory clocks.now flags.now values.now posts.now) place after.now result }
{
    if !after.is_empty() {
        return Err(RecordingFault {
            reason: Reason::BytesAfterEnd,
            place: place + 1,
        });
    }
    let left = board.left(clocks, flags, values, posts);
    with_place(with_reason(left), place)
}

// Reads the commands from a byte of the input on, and hands the calls to a board, up to the end or to where the recording breaks off. A mark's line
// is written, in the room that the page has for each byte. Answers how many messages are left on their way.
fn follow<J: Judge<Value = u64>>(
    page: &mut Page,
    board: &Board<Measured<J>>,
    clocks: &mut Grid<'_, Clock>,
    flags: &mut Grid<'_, bool>,
    values: &mut Grid<'_, u64>,
    posts: &mut [Post],
    bytes: &[u8],
    from: usize,
) -> Result<usize, RecordingFault>
    requires room { let b = setup_of board.now in
        has_room b.units b.messages (memory clocks.old flags.old values.old posts.old) ≡ true }
    requires places { from + length bytes.now < 2 ^ 64 }
    requires space { length page.old.text + TEXT_PER_BYTE * length bytes.now ≤ page.old.room }
    ensures tells { let b = setup_of board.now in
        WroteOn J.Measure.meaning J.Judge.some_of J.Judge.all_of
        (payload_of board.now).measure b.units b.messages
        (memory clocks.old flags.old values.old posts.old)
        from bytes.now page.old.text page.new.text result }
    ensures long { length page.new.text ≤ length page.old.text + TEXT_PER_BYTE * length bytes.now }
    ensures room { page.old.room ≤ page.new.room }
{
    let mut rest = bytes;
    loop {
        let place = from + (bytes.len() - rest.len());
        let (command, after) = with_place(first_command(rest), place)?;
        match command {
            Command::Call(call) => {
                let line = hand_for_line(board, clocks, flags, values, posts, call);
                if let Some(line) = with_place(line, place)? {
                    push_mark(page, line);
                }
            }
            Command::End => {
                return close(board, clocks, flags, values, posts, after, place);
            }
            Command::Make(_, _) => {
                let reason = Reason::SecondBoard;
                return Err(RecordingFault { reason, place });
            }
        }
        rest = after;
    }
}

// Reads a recording from a byte of the input on: its first command makes the board, under the judge. Writes the lines of its marks, and answers
// how many messages are left on their way.
pub(crate) fn transcribe<J: Judge<Value = u64> + Drop>(
    page: &mut Page,
    judge: J,
    bytes: &[u8],
    place: usize,
) -> Result<usize, RecordingFault>
    requires places { place + length bytes.now < 2 ^ 64 }
    requires space { length page.old.text + TEXT_PER_BYTE * length bytes.now ≤ page.old.room }
    ensures tells { Wrote page.old.text page.new.text
        (transcript (J.Measure.meaning judge) (J.Judge.some_of judge) (J.Judge.all_of judge)
        place bytes.now) result }
    ensures long { length page.new.text ≤ length page.old.text + TEXT_PER_BYTE * length bytes.now }
    ensures room { page.old.room ≤ page.new.room }
{
    let (command, rest) = with_place(first_command(bytes), place)?;
    let Command::Make(units, messages) = command else {
        let reason = Reason::NoBoard;
        return Err(RecordingFault { reason, place });
    };
    let units = usize::from(units);
    let messages = usize::from(messages);
    let mut clocks = [0; MOST_CELLS];
    let mut flags = [false; MOST_CELLS];
    let mut values = [0; MOST_CELLS];
    let mut posts = [Post::UNSENT; MAX_MESSAGES];
    let mut clocks = Grid::new(&mut clocks, units);
    let mut flags = Grid::new(&mut flags, units);
    let mut values = Grid::new(&mut values, units);
    let made = Board::make(
        Measured { measure: judge },
        units,
        messages,
        &mut clocks,
        &mut flags,
        &mut values,
        &mut posts,
    );
    let board = with_place(with_reason(made), place)?;
    follow(
        page,
        &board,
        &mut clocks,
        &mut flags,
        &mut values,
        &mut posts,
        rest,
        place + MAKING_SIZE,
    )
}
