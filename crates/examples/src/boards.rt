//! Boards that are handed calls, with and without measures: what each call answers, what is refused and by which number, and what a
//! refusal leaves as it was.
use super::reading::{other_labels, pattern};
use causality::{Bare, Board, Payload};
use grid::Grid;
use history::{Answer, Call, Clock, Event, Marked, Post, Refusal};
use measures::{
    Fault, FlowCount, Judge, JudgedValue, Lengths, Measure, Measured, Pattern, Span, Verdict,
    mark_judged, replay,
};
use std::test::Fail;

// The number of the refusal, if there is one.
fn refusal_number<T: Drop>(answered: Result<T, Refusal>) -> Option<u8> {
    answered.err().map(u8::from)
}

// The first cells of a memory.
fn first_cells<T>(memory: &mut [T], count: usize) -> &mut [T] {
    let count = count.min(memory.len());
    &mut memory[..count]
}

// A board without measures, of that size.
fn bare_board(units: usize, messages: usize) -> Result<Board<Bare>, Refusal> {
    Board::of_size(Bare::new(), units, messages)
}

// How much of a memory is lent: the cells and the widths of the grids of clocks, flags and values, and the places for messages.
#[derive(Clone, Copy)]
struct Lent {
    cells: [usize; 3],
    widths: [usize; 3],
    places: usize,
}

// Memory for a board of 2 units and 2 messages under a pattern, which needs 8 cells of each kind and 2 places, and more.
#[derive(Clone, Copy, PartialEq, Eq, Debug)]
struct Memory {
    clocks: [Clock; 12],
    flags: [bool; 12],
    values: [u64; 12],
    posts: [Post; 3],
}

// Memory full of values that no board has put there.
const WRITTEN_BEFORE: Memory = Memory {
    clocks: [7; 12],
    flags: [true; 12],
    values: [9; 12],
    posts: [Post::Delivered; 3],
};

// Just enough of it.
const ENOUGH: Lent = Lent {
    cells: [8, 8, 8],
    widths: [2, 2, 2],
    places: 2,
};

// One cell or place too few, or a grid of another width.
const SHORT: [Lent; 6] = [
    Lent {
        cells: [7, 8, 8],
        ..ENOUGH
    },
    Lent {
        cells: [8, 7, 8],
        ..ENOUGH
    },
    Lent {
        places: 1,
        ..ENOUGH
    },
    Lent {
        cells: [12, 8, 8],
        widths: [3, 2, 2],
        ..ENOUGH
    },
    Lent {
        widths: [1, 2, 2],
        ..ENOUGH
    },
    Lent {
        cells: [8, 12, 8],
        widths: [2, 3, 2],
        ..ENOUGH
    },
];

// The same of the values.
const SHORT_OF_VALUES: [Lent; 3] = [
    Lent {
        cells: [8, 8, 7],
        ..ENOUGH
    },
    Lent {
        cells: [8, 8, 12],
        widths: [2, 2, 3],
        ..ENOUGH
    },
    Lent {
        widths: [2, 2, 1],
        ..ENOUGH
    },
];

// The numbers of the refusals of each call of a board, and of its making, in lent memory.
fn refusals<P: Payload>(
    payload: P,
    board: &Board<P>,
    clocks: &mut Grid<'_, Clock>,
    flags: &mut Grid<'_, bool>,
    values: &mut Grid<'_, P::Value>,
    posts: &mut [Post],
) -> [Option<u8>; 6]
where
    P: Drop,
{
    [
        refusal_number(board.send(clocks, flags, values, posts, 2, 9)),
        refusal_number(board.receive(clocks, flags, values, posts, 2, 9)),
        refusal_number(board.mark(clocks, flags, values, posts, 2, 9)),
        refusal_number(board.state(clocks, flags, values, posts, 9)),
        refusal_number(board.left(clocks, flags, values, posts)),
        refusal_number(Board::make(payload, 2, 2, clocks, flags, values, posts)),
    ]
}

impl Memory {
    // The refusals of a board without measures, in a part of the memory.
    fn refusals(&mut self, board: &Board<Bare>, lent: Lent) -> [Option<u8>; 6] {
        let mut nothing = [(); 12];
        let clocks = &mut Grid::new(first_cells(&mut self.clocks, lent.cells[0]), lent.widths[0]);
        let flags = &mut Grid::new(first_cells(&mut self.flags, lent.cells[1]), lent.widths[1]);
        let values = &mut Grid::new(first_cells(&mut nothing, lent.cells[2]), lent.widths[2]);
        let posts = first_cells(&mut self.posts, lent.places);
        refusals(Bare::new(), board, clocks, flags, values, posts)
    }

    // The same of a board under the pattern.
    fn measured_refusals(
        &mut self,
        pattern: Pattern,
        board: &Board<Measured<Pattern>>,
        lent: Lent,
    ) -> [Option<u8>; 6] {
        let clocks = &mut Grid::new(first_cells(&mut self.clocks, lent.cells[0]), lent.widths[0]);
        let flags = &mut Grid::new(first_cells(&mut self.flags, lent.cells[1]), lent.widths[1]);
        let values = &mut Grid::new(first_cells(&mut self.values, lent.cells[2]), lent.widths[2]);
        let posts = first_cells(&mut self.posts, lent.places);
        refusals(
            Measured { measure: pattern },
            board,
            clocks,
            flags,
            values,
            posts,
        )
    }

    // Makes a board under the pattern, in just enough of the memory.
    fn make(&mut self, pattern: Pattern) -> Result<Board<Measured<Pattern>>, Refusal> {
        let clocks = &mut Grid::new(first_cells(&mut self.clocks, 8), 2);
        let flags = &mut Grid::new(first_cells(&mut self.flags, 8), 2);
        let values = &mut Grid::new(first_cells(&mut self.values, 8), 2);
        let posts = first_cells(&mut self.posts, 2);
        Board::make(
            Measured { measure: pattern },
            2,
            2,
            clocks,
            flags,
            values,
            posts,
        )
    }

    // Hands a call to that board.
    fn hand(
        &mut self,
        board: &Board<Measured<Pattern>>,
        call: Call,
    ) -> Result<Answer<u64>, Refusal> {
        let clocks = &mut Grid::new(first_cells(&mut self.clocks, 8), 2);
        let flags = &mut Grid::new(first_cells(&mut self.flags, 8), 2);
        let values = &mut Grid::new(first_cells(&mut self.values, 8), 2);
        let posts = first_cells(&mut self.posts, 2);
        board.hand(clocks, flags, values, posts, call)
    }

    // What comes of a call: the number of its refusal, if it is refused, and whether the memory is then as it was.
    fn outcome(&mut self, board: &Board<Measured<Pattern>>, call: Call) -> (Option<u8>, bool) {
        let before = *self;
        let number = refusal_number(self.hand(board, call));
        (number, *self == before)
    }

    // A unit of that board makes a mark, which the pattern judges.
    fn judge(
        &mut self,
        board: &Board<Measured<Pattern>>,
        unit: usize,
        label: u8,
    ) -> Result<Marked<JudgedValue<u64>>, Refusal> {
        let clocks = &mut Grid::new(first_cells(&mut self.clocks, 8), 2);
        let flags = &mut Grid::new(first_cells(&mut self.flags, 8), 2);
        let values = &mut Grid::new(first_cells(&mut self.values, 8), 2);
        mark_judged(board, clocks, flags, values, &self.posts, unit, label)
    }

    // Makes a board without measures there.
    fn make_bare(&mut self) -> Result<Board<Bare>, Refusal> {
        let mut nothing = [(); 8];
        let clocks = &mut Grid::new(first_cells(&mut self.clocks, 8), 2);
        let flags = &mut Grid::new(first_cells(&mut self.flags, 8), 2);
        let values = &mut Grid::new(&mut nothing, 2);
        Board::make(
            Bare::new(),
            2,
            2,
            clocks,
            flags,
            values,
            first_cells(&mut self.posts, 2),
        )
    }

    // Hands a call to that one.
    fn hand_bare(&mut self, board: &Board<Bare>, call: Call) -> Result<Answer<()>, Refusal> {
        let mut nothing = [(); 8];
        let clocks = &mut Grid::new(first_cells(&mut self.clocks, 8), 2);
        let flags = &mut Grid::new(first_cells(&mut self.flags, 8), 2);
        let values = &mut Grid::new(&mut nothing, 2);
        board.hand(clocks, flags, values, first_cells(&mut self.posts, 2), call)
    }
}

// The number of the refusal of a board of that size, which is lent no memory but for values.
fn size_refusal<P: Payload>(
    payload: P,
    units: usize,
    messages: usize,
    values: &mut [P::Value],
) -> Option<u8>
where
    P: Drop,
{
    let clocks = &mut Grid::new(&mut [], units);
    let flags = &mut Grid::new(&mut [], units);
    let values = &mut Grid::new(values, units);
    let made = Board::make(payload, units, messages, clocks, flags, values, &mut []);
    refusal_number(made)
}

// Sizes that a board cannot have, and sizes for which there is no memory here, each with the number of the refusal.
const SIZES: [(usize, usize, u8); 8] = [
    (0, 0, 1),
    (17, 0, 1),
    (0, 256, 1),
    (17, 256, 1),
    (1, 256, 2),
    (16, 256, 2),
    (1, 0, 3),
    (16, 255, 3),
];

#[test]
fn sizes_that_are_refused(rt: HostRuntime) -> Result<(), Fail> {
    let measure = FlowCount::new(1)?;
    for (units, messages, number) in SIZES {
        assert_eq!(rt;
            [
                size_refusal(Bare::new(), units, messages, &mut []),
                size_refusal(Measured { measure }, units, messages, &mut []),
            ],
            [Some(number); 2]
        );
    }
    assert_eq!(rt;
        [
            refusal_number(bare_board(0, 256)),
            refusal_number(bare_board(16, 256)),
            refusal_number(bare_board(16, 255)),
        ],
        [Some(1), Some(2), None]
    );
    Ok(())
}

// Makes the largest board, of 271 rows of 16 cells, in that many cells.
fn largest(cells: usize) -> Result<Board<Bare>, Refusal> {
    let (mut clocks, mut flags, mut posts) = ([9; 4336], [true; 4336], [Post::Delivered; 255]);
    let mut nothing = [(); 4336];
    let clocks = &mut Grid::new(first_cells(&mut clocks, cells), 16);
    let flags = &mut Grid::new(first_cells(&mut flags, cells), 16);
    let values = &mut Grid::new(&mut nothing, 16);
    Board::make(Bare::new(), 16, 255, clocks, flags, values, &mut posts)
}

#[test]
fn the_largest_board(rt: HostRuntime) {
    assert_eq!(rt;
        [
            refusal_number(largest(4336)),
            refusal_number(largest(4335)),
        ],
        [None, Some(3)]
    );
}

// Memory is asked for before all else, and nothing is written where it is too short.
#[test]
fn memory_that_is_too_short(rt: HostRuntime) -> Result<(), Fail> {
    let pattern = pattern()?;
    let mut memory = WRITTEN_BEFORE;
    let made = memory.make(pattern)?;
    let bare = bare_board(2, 2)?;
    memory = WRITTEN_BEFORE;
    for lent in SHORT {
        let answers = memory.refusals(&bare, lent);
        let measured_answers = memory.measured_refusals(pattern, &made, lent);
        assert_eq!(rt;
            (answers, measured_answers, memory),
            ([Some(3); 6], [Some(3); 6], WRITTEN_BEFORE)
        );
    }
    for lent in SHORT_OF_VALUES {
        let answers = memory.measured_refusals(pattern, &made, lent);
        assert_eq!(rt; (answers, memory), ([Some(3); 6], WRITTEN_BEFORE));
    }
    Ok(())
}

// With just enough memory each call asks its next question, and the making of a board writes no cell beyond those that it needs.
#[test]
fn just_enough_memory(rt: HostRuntime) -> Result<(), Fail> {
    let pattern = pattern()?;
    let mut memory = WRITTEN_BEFORE;
    let made = memory.make(pattern)?;
    let bare = bare_board(2, 2)?;
    memory = WRITTEN_BEFORE;
    let measured_answers = memory.measured_refusals(pattern, &made, ENOUGH);
    let values = memory.values;
    let answers = memory.refusals(&bare, ENOUGH);
    let asked = [Some(4), Some(4), Some(4), Some(5), None, None];
    assert_eq!(rt;
        (answers, measured_answers, values),
        (asked, asked, [1, 1, 1, 1, 1, 1, 1, 1, 9, 9, 9, 9])
    );
    Ok(())
}

// The calls on a board of 2 units and 2 messages with 3 labels, each with the number of its refusal, if it is refused.
const QUESTIONS: [(usize, Event, Option<u8>); 14] = [
    (2, Event::Send(9), Some(4)),
    (0, Event::Send(2), Some(5)),
    (2, Event::Receive(9), Some(4)),
    (0, Event::Receive(2), Some(5)),
    (0, Event::Receive(0), Some(8)),
    (0, Event::Send(0), None),
    (0, Event::Send(0), Some(7)),
    (1, Event::Send(0), Some(7)),
    (1, Event::Receive(0), None),
    (1, Event::Receive(0), Some(9)),
    (0, Event::Send(0), Some(7)),
    (2, Event::Mark(3), Some(4)),
    (0, Event::Mark(3), Some(6)),
    (0, Event::Mark(2), None),
];

// The questions of the calls in their order; a call that is refused leaves the memory as it was.
#[test]
fn questions_of_the_calls(rt: HostRuntime) -> Result<(), Fail> {
    let mut memory = WRITTEN_BEFORE;
    let board = memory.make(pattern()?)?;
    for (unit, event, number) in QUESTIONS {
        assert_eq!(rt;
            memory.outcome(&board, Call { unit, event }),
            (number, number.is_some())
        );
    }
    Ok(())
}

// Makes a board of one unit and no message under a measure.
fn board_of_one_unit<M: Measure>(
    measure: M,
    clocks: &mut [Clock],
    flags: &mut [bool],
    values: &mut [M::Value],
) -> Result<Board<Measured<M>>, Refusal>
where
    M: Drop,
{
    let clocks = &mut Grid::new(clocks, 1);
    let flags = &mut Grid::new(flags, 1);
    let values = &mut Grid::new(values, 1);
    Board::make(Measured { measure }, 1, 0, clocks, flags, values, &mut [])
}

// The own clock in the answer to a mark of the one unit, or the number of the refusal.
fn mark_clock<P: Payload>(
    board: &Board<P>,
    clocks: &mut [Clock],
    flags: &mut [bool],
    values: &mut [P::Value],
    label: u8,
) -> Result<Clock, u8> {
    let clocks = &mut Grid::new(clocks, 1);
    let flags = &mut Grid::new(flags, 1);
    let values = &mut Grid::new(values, 1);
    match board.mark(clocks, flags, values, &[], 0, label) {
        Ok(mark) => Ok(mark.clock),
        Err(refusal) => Err(u8::from(refusal)),
    }
}

// A unit's own clock goes up to 65,535; a label that the measure lacks is refused before a full clock.
#[test]
fn the_last_mark_of_a_unit(rt: HostRuntime) -> Result<(), Fail> {
    let (mut clocks, mut flags, mut values) = ([0], [false], [Lengths::default()]);
    let made = board_of_one_unit(Span::new(1, 9)?, &mut clocks, &mut flags, &mut values)?;
    for clock in 1..=65535 {
        assert_eq!(rt;
            mark_clock(&made, &mut clocks, &mut flags, &mut values, 0),
            Ok(clock)
        );
    }
    let bare = bare_board(1, 0)?;
    assert_eq!(rt;
        [
            mark_clock(&made, &mut clocks, &mut flags, &mut values, 1),
            mark_clock(&made, &mut clocks, &mut flags, &mut values, 0),
            mark_clock(&bare, &mut clocks, &mut flags, &mut [()], 0),
        ],
        [Err(6), Err(10), Err(10)]
    );
    let full = Lengths {
        shortest: 65535,
        longest: 65535,
    };
    assert_eq!(rt; (clocks, values), ([65535], [full]));
    Ok(())
}

// Player waits first: unit 1 waits and tells unit 0, which then hears the beacon and tells unit 1, which starts the sound.
// Each call with the own clock in its answer, and of a mark its predecessors and its value.
const PLAYER_WAITS_FIRST: [(usize, Event, Clock, Option<(u64, u64)>); 7] = [
    (1, Event::Mark(1), 1, Some((0, 0x02))),
    (1, Event::Send(0), 1, None),
    (0, Event::Receive(0), 0, None),
    (0, Event::Mark(0), 1, Some((2, 0x04))),
    (0, Event::Send(1), 1, None),
    (1, Event::Receive(1), 1, None),
    (1, Event::Mark(2), 2, Some((1, 0x08))),
];

// The same of a mark without its value.
fn bare_mark(mark: Option<(u64, u64)>) -> Option<(u64, ())> {
    mark.map(|(predecessors, _)| (predecessors, ()))
}

#[test]
fn the_player_waits_first(rt: HostRuntime) -> Result<(), Fail> {
    let (mut memory, mut bare_memory) = (WRITTEN_BEFORE, WRITTEN_BEFORE);
    let made = memory.make(pattern()?)?;
    let bare = bare_memory.make_bare()?;
    for (unit, event, clock, mark) in PLAYER_WAITS_FIRST {
        let call = Call { unit, event };
        assert_eq!(rt;
            (
                answer_parts(memory.hand(&made, call)),
                answer_parts(bare_memory.hand_bare(&bare, call)),
            ),
            (Ok((clock, mark)), Ok((clock, bare_mark(mark))))
        );
    }
    assert_eq!(rt;
        bare_memory,
        Memory {
            posts: [Post::Delivered; 3],
            values: WRITTEN_BEFORE.values,
            ..memory
        }
    );
    Ok(())
}

// What a board says of itself: whether the memory is long enough, what became of a message, and how many are on their way.
type Status = (bool, Result<Post, Refusal>, Result<usize, Refusal>);

fn status<P: Payload>(
    board: &Board<P>,
    clocks: &Grid<'_, Clock>,
    flags: &Grid<'_, bool>,
    values: &Grid<'_, P::Value>,
    posts: &[Post],
    message: usize,
) -> Status {
    (
        board.has_room(clocks, flags, values, posts),
        board.state(clocks, flags, values, posts, message),
        board.left(clocks, flags, values, posts),
    )
}

impl Memory {
    // What a board under the pattern says of itself, in just enough of the memory.
    fn status(&mut self, board: &Board<Measured<Pattern>>, message: usize) -> Status {
        let clocks = &Grid::new(first_cells(&mut self.clocks, 8), 2);
        let flags = &Grid::new(first_cells(&mut self.flags, 8), 2);
        let values = &Grid::new(first_cells(&mut self.values, 8), 2);
        let posts = first_cells(&mut self.posts, 2);
        status(board, clocks, flags, values, posts, message)
    }

    // The same of a board without measures.
    fn bare_status(&mut self, board: &Board<Bare>, message: usize) -> Status {
        let mut nothing = [(); 8];
        let clocks = &Grid::new(first_cells(&mut self.clocks, 8), 2);
        let flags = &Grid::new(first_cells(&mut self.flags, 8), 2);
        let values = &Grid::new(&mut nothing, 2);
        let posts = first_cells(&mut self.posts, 2);
        status(board, clocks, flags, values, posts, message)
    }
}

// While one message is on its way, with the measure and without it.
#[test]
fn a_message_on_its_way(rt: HostRuntime) -> Result<(), Fail> {
    let mut memory = WRITTEN_BEFORE;
    let board = memory.make(pattern()?)?;
    let bare = bare_board(2, 2)?;
    let call = Call {
        unit: 1,
        event: Event::Send(0),
    };
    let sent = answer_parts(memory.hand(&board, call));
    let statuses = [memory.status(&board, 0), memory.bare_status(&bare, 1)];
    assert_eq!(rt;
        (sent, statuses),
        (
            Ok((0, None)),
            [
                (true, Ok(Post::OnItsWay), Ok(1)),
                (true, Ok(Post::Unsent), Ok(1)),
            ],
        )
    );
    Ok(())
}

// Unit 1 tells unit 0 that it waits, and goes on waiting while unit 0 hears the beacon: one flow to the sound has the beacon, the other
// has not.
const ONE_FLOW_OF_TWO: [(usize, Event); 7] = [
    (1, Event::Mark(1)),
    (1, Event::Send(0)),
    (0, Event::Receive(0)),
    (0, Event::Mark(0)),
    (0, Event::Send(1)),
    (1, Event::Mark(1)),
    (1, Event::Receive(1)),
];

#[test]
fn one_flow_of_two_is_good(rt: HostRuntime) -> Result<(), Fail> {
    let mut memory = WRITTEN_BEFORE;
    let board = memory.make(pattern()?)?;
    for (unit, event) in ONE_FLOW_OF_TWO {
        memory.hand(&board, Call { unit, event })?;
    }
    assert_eq!(rt;
        memory.judge(&board, 1, 2),
        Ok(Marked {
            clock: 3,
            predecessors: 3,
            value: JudgedValue {
                value: 0x18,
                verdict: Verdict {
                    some: true,
                    all: false,
                },
            },
        })
    );
    Ok(())
}

// Unit 1 waits and tells unit 0, which then hears the beacon; unit 2 hears it too. Both tell unit 1, which starts the sound. One flow
// that ends there is good, and the other, beacon and sound, is not.
fn two_flows(beacon: u8, waiting: u8, sound: u8) -> [Call; 10] {
    [
        (1, Event::Mark(waiting)),
        (1, Event::Send(0)),
        (0, Event::Receive(0)),
        (0, Event::Mark(beacon)),
        (0, Event::Send(1)),
        (2, Event::Mark(beacon)),
        (2, Event::Send(2)),
        (1, Event::Receive(1)),
        (1, Event::Receive(2)),
        (1, Event::Mark(sound)),
    ]
    .map(|(unit, event)| Call { unit, event })
}

// The own clock in an answer, and with it the predecessors and the value of a mark; or the number of the refusal.
fn answer_parts<V: Copy>(
    answered: Result<Answer<V>, Refusal>,
) -> Result<(Clock, Option<(u64, V)>), u8> {
    match answered {
        Ok(Answer::Sent(clock) | Answer::Received(clock)) => Ok((clock, None)),
        Ok(Answer::Marked(mark)) => Ok((mark.clock, Some((mark.predecessors, mark.value)))),
        Err(refusal) => Err(u8::from(refusal)),
    }
}

// Hands calls to a new board of 3 units and 3 messages. Answers how many were handed in and how many messages are then on their way.
fn replay_counts<M: Measure>(
    measure: M,
    values: &mut [M::Value],
    calls: &[Call],
    answers: &mut [Result<Answer<M::Value>, Refusal>],
) -> Result<(usize, usize), Refusal>
where
    M: Drop,
{
    let (mut clocks, mut flags, mut posts) = ([9; 18], [true; 18], [Post::Delivered; 3]);
    let clocks = &mut Grid::new(&mut clocks, 3);
    let flags = &mut Grid::new(&mut flags, 3);
    let values = &mut Grid::new(values, 3);
    let count = replay(
        measure, 3, 3, clocks, flags, values, &mut posts, calls, answers,
    )?;
    let mut nothing = [(); 18];
    let nothing = &Grid::new(&mut nothing, 3);
    let left = bare_board(3, 3)?.left(clocks, flags, nothing, &posts)?;
    Ok((count, left))
}

// The same under the pattern.
fn pattern_replay_counts(
    values: &mut [u64],
    calls: &[Call],
    answers: &mut [Result<Answer<u64>, Refusal>],
) -> Result<Result<(usize, usize), Refusal>, Fault> {
    Ok(replay_counts(pattern()?, values, calls, answers))
}

// An answer place that no call has written: a refusal that no board gives.
const UNWRITTEN: Refusal = Refusal::StampLength;

#[test]
fn calls_replayed_under_the_pattern(rt: HostRuntime) -> Result<(), Fail> {
    let mut answers = [Err(UNWRITTEN); 12];
    let counts = pattern_replay_counts(&mut [9; 18], &two_flows(0, 1, 2), &mut answers)?;
    assert_eq!(rt; counts, Ok((10, 0)));
    assert_eq!(rt;
        answers.map(answer_parts),
        [
            Ok((1, Some((0, 0x02)))),
            Ok((1, None)),
            Ok((0, None)),
            Ok((1, Some((2, 0x04)))),
            Ok((1, None)),
            Ok((1, Some((0, 0x10)))),
            Ok((1, None)),
            Ok((1, None)),
            Ok((1, None)),
            Ok((2, Some((5, 0x18)))),
            Err(12),
            Err(12),
        ]
    );
    Ok(())
}

// With fewer places for answers than calls, the calls beyond them are left; where no board is made, all are.
#[test]
fn calls_that_are_left(rt: HostRuntime) -> Result<(), Fail> {
    let calls = two_flows(0, 1, 2);
    let mut answers = [Err(UNWRITTEN); 3];
    let counts = pattern_replay_counts(&mut [9; 18], &calls, first_cells(&mut answers, 2))?;
    let before = answers;
    let short = pattern_replay_counts(&mut [9; 17], &calls, &mut answers)?;
    assert_eq!(rt; (counts, refusal_number(short)), (Ok((2, 1)), Some(3)));
    assert_eq!(rt;
        (before.map(answer_parts), answers == before),
        ([Ok((1, Some((0, 0x02)))), Ok((1, None)), Err(12)], true)
    );
    Ok(())
}

// The sound at the end of the calls: two flows, of two and of three marks; and the same states by other labels.
#[test]
fn the_last_mark_under_other_measures(rt: HostRuntime) -> Result<(), Fail> {
    let calls = two_flows(0, 1, 2);
    let written = Lengths {
        shortest: 9,
        longest: 9,
    };
    let both = Lengths {
        shortest: 2,
        longest: 3,
    };
    let count = FlowCount::new(3)?;
    let span = Span::new(3, 2)?;
    let relabelling = other_labels()?;
    let mut counts = [Err(UNWRITTEN); 10];
    let mut spans = [Err(UNWRITTEN); 10];
    let mut sets = [Err(UNWRITTEN); 10];
    assert_eq!(rt;
        [
            replay_counts(count, &mut [9; 18], &calls, &mut counts),
            replay_counts(span, &mut [written; 18], &calls, &mut spans),
            replay_counts(relabelling, &mut [9; 18], &two_flows(2, 0, 1), &mut sets),
        ],
        [Ok((10, 0)); 3]
    );
    assert_eq!(rt;
        (
            answer_parts(counts[9]),
            answer_parts(spans[9]),
            answer_parts(sets[9]),
        ),
        (
            Ok((2, Some((5, 2)))),
            Ok((2, Some((5, both)))),
            Ok((2, Some((5, 0x18)))),
        )
    );
    Ok(())
}

// The judge's verdict on the last of a unit's marks, which are all that there is.
fn last_verdict<J: Judge>(
    judge: J,
    values: &mut [J::Value],
    labels: &[u8],
) -> Result<Option<Verdict>, Refusal>
where
    J: Drop,
{
    let (mut clocks, mut flags, mut last) = ([0], [false], None);
    let clocks = &mut Grid::new(&mut clocks, 1);
    let flags = &mut Grid::new(&mut flags, 1);
    let values = &mut Grid::new(values, 1);
    let board = Board::make(
        Measured { measure: judge },
        1,
        0,
        clocks,
        flags,
        values,
        &mut [],
    )?;
    for &label in labels {
        let marked = mark_judged(&board, clocks, flags, values, &[], 0, label)?;
        last = Some(marked.value.verdict);
    }
    Ok(last)
}

// Waiting, beacon, sound: by other labels, and in a span of at most two marks.
#[test]
fn marks_judged(rt: HostRuntime) -> Result<(), Fail> {
    let good = Verdict {
        some: true,
        all: true,
    };
    let bad = Verdict {
        some: false,
        all: false,
    };
    let relabelling = other_labels()?;
    let span = Span::new(3, 2)?;
    let start = Lengths::default();
    assert_eq!(rt;
        [
            last_verdict(relabelling, &mut [0], &[0, 2, 1]),
            last_verdict(relabelling, &mut [0], &[0, 2]),
            last_verdict(span, &mut [start], &[1, 0]),
            last_verdict(span, &mut [start], &[1, 0, 2]),
        ],
        [Ok(Some(good)), Ok(Some(bad)), Ok(Some(good)), Ok(Some(bad))]
    );
    Ok(())
}
