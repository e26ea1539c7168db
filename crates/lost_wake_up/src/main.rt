//! Replays the lost wake-up on a board under the wake-up pattern, and prints what each call is answered.
//! Unit 0 hears the beacon, unit 1 begins to wait, and each learns of the other's mark only after its own: the sound that unit 1 starts then
//! is no good end.
#![tactic(auto)]

mod lines;

use anyhow::Result;
use causality::Board;
use grid::Grid;
use history::{Answer, Call, Event, Post, Refusal};
use lines::{CallLine, Reply};
use measures::{Measured, Pattern, judged_answer, replay};

// The wake-up pattern. A flow is good if it is made of rounds, one or more: a waiting, then waitings and beacons of which the last is a beacon, then a sound.
const PATTERN: [u8; 27] = [
    0x20, 5, 3, 0, 0x08, 0, 0, 0, 0, 0, 0, 0, 4, 1, 4, 2, 1, 4, 2, 1, 3, 4, 1, 4, 4, 4, 4,
];

// The label of a mark where a beacon is heard.
const BEACON: u8 = 0;

// The label of a mark where the player begins to wait.
const WAITING: u8 = 1;

// The label of a mark where the sound starts.
const SOUND: u8 = 2;

// The number of units of the board.
const UNITS: usize = 2;

// The number of messages of the board.
const MESSAGES: usize = 2;

// The number of cells of each memory: a row for each unit and for each message, with a cell for each unit.
const CELLS: usize = (UNITS + MESSAGES) * UNITS;

// The number of calls that are handed in.
const CALLS: usize = 7;

// A call of a unit.
fn call(unit: usize, event: Event) -> Call {
    Call { unit, event }
}

// The calls of the lost wake-up, in the order in which they are handed in.
fn lost_wake_up() -> [Call; CALLS] {
    [
        call(0, Event::Mark(BEACON)),
        call(0, Event::Send(1)),
        call(1, Event::Mark(WAITING)),
        call(1, Event::Send(0)),
        call(1, Event::Receive(1)),
        call(0, Event::Receive(0)),
        call(1, Event::Mark(SOUND)),
    ]
}

// Prints a header, and a line for each call with what it is answered.
fn print_answers(
    rt: &impl Print,
    pattern: &Pattern,
    calls: &[Call],
    answers: &[Result<Answer<u64>, Refusal>],
) -> Result<()> {
    println!(rt; "unit call number clock preds states some all")?;
    for (&call, &answered) in calls.iter().zip(answers) {
        let answer = answered.map(|answer| judged_answer(pattern, answer));
        let reply = Reply { answer };
        let line = CallLine { call, reply };
        println!(rt; "{line}")?;
    }
    Ok(())
}

// Hands the calls to a new board, and prints their answers and how many messages are left on their way.
fn main(rt: HostRuntime) -> Result<()> {
    let pattern = Pattern::read(&PATTERN)?;
    let calls = lost_wake_up();
    let mut clocks = [0; CELLS];
    let mut flags = [false; CELLS];
    let mut values = [0; CELLS];
    let mut posts = [Post::UNSENT; MESSAGES];
    let mut clocks = Grid::new(&mut clocks, UNITS);
    let mut flags = Grid::new(&mut flags, UNITS);
    let mut values = Grid::new(&mut values, UNITS);
    // each place holds a refusal until the board puts the answer there
    let mut answers = [Err(Refusal::MemoryTooShort); CALLS];
    let count = replay(
        pattern,
        UNITS,
        MESSAGES,
        &mut clocks,
        &mut flags,
        &mut values,
        &mut posts,
        &calls,
        &mut answers,
    )?;
    print_answers(&rt, &pattern, &calls, &answers[..count])?;
    let board = Board::of_size(Measured { measure: pattern }, UNITS, MESSAGES)?;
    let left = board.left(&clocks, &flags, &values, &posts)?;
    println!(rt; "left {left}")?;
    Ok(())
}
