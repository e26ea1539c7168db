//! A whole list of calls, handed to a board just made.
ghost use Rattle.std.specs.Prelude.{◌≡◌, true, []};
ghost use Rattle.causality.specs.Boards.{SameLoans, has_room, memory, payload_of, setup_of};
ghost use Rattle.measures.specs.Boards.{LawOfBoards, Played};
ghost use Rattle.measures.specs.Replays.{ReplayAnswer, Replayed};

use super::Measure;
use super::boards::Measured;
use causality::Board;
use grid::{Grid, put};
use history::{Answer, Call, Clock, Post, Refusal};

// Hands a list of calls to a board that is just made, in order, as many as there are places for answers. Answers their number.
fn play<M: Measure>(
    board: &Board<Measured<M>>,
    clocks: &mut Grid<'_, Clock>,
    flags: &mut Grid<'_, bool>,
    values: &mut Grid<'_, M::Value>,
    posts: &mut [Post],
    calls: &[Call],
    answers: &mut [Result<Answer<M::Value>, Refusal>],
) -> usize
    requires room { let b = setup_of board.now in
        has_room b.units b.messages (memory clocks.old flags.old values.old posts.old) ≡ true }
    requires new_board { let b = setup_of board.now in
        Played (M.meaning (payload_of board.now).measure) b.units b.messages [] []
        (memory clocks.old flags.old values.old posts.old) }
    ensures played { let b = setup_of board.now in
        Replayed (M.meaning (payload_of board.now).measure) b.units b.messages calls.now result
        (memory clocks.old flags.old values.old posts.old)
        (memory clocks.new flags.new values.new posts.new) answers.old answers.new }
    ensures loans { SameLoans (memory clocks.old flags.old values.old posts.old)
        (memory clocks.new flags.new values.new posts.new) }
{
    let count = calls.len().min(answers.len());
    for i in 0..count {
        let answer = board.hand(clocks, flags, values, posts, calls[i]);
        put(answers, i, answer);
    }
    count
}

/// Makes a board and hands it a list of calls, in order, as many as there are places for answers; answers their number. Then each call has its answer
/// or its refusal in its place, and the memory is what the rules make of it (`replayed`). Refuses as the making of a board does (1, 2, 3), and then
/// changes nothing.
///
/// The law of boards (`law`) says what is true of these answers and of this memory, for every list of calls: each accepted mark's value is the join
/// of the measure along the longest flows that end there, each taken exactly once; the order of calls of different units changes nothing; and a
/// judge's answers say whether some, and whether all, of these flows are good.
pub fn replay<M: Measure>(
    measure: M,
    units: usize,
    messages: usize,
    clocks: &mut Grid<'_, Clock>,
    flags: &mut Grid<'_, bool>,
    values: &mut Grid<'_, M::Value>,
    posts: &mut [Post],
    calls: &[Call],
    answers: &mut [Result<Answer<M::Value>, Refusal>],
) -> Result<usize, Refusal>
where
    M: Drop,
    ensures replayed { ReplayAnswer (M.meaning measure) units messages calls.now
        (memory clocks.old flags.old values.old posts.old)
        (memory clocks.new flags.new values.new posts.new) answers.old answers.new result }
    ensures law { LawOfBoards (M.meaning measure) (M.admits measure) }
    ensures loans { SameLoans (memory clocks.old flags.old values.old posts.old)
        (memory clocks.new flags.new values.new posts.new) }
{
    let board = Board::make(
        Measured { measure },
        units,
        messages,
        clocks,
        flags,
        values,
        posts,
    )?;
    Ok(play(&board, clocks, flags, values, posts, calls, answers))
}
