//! Messages that move on, stamps that are compared, rows that are copied and merged, and what marks are worth.
use super::reading::pattern;
use bitset::take_positions;
use causality::{Bare, Board, Payload, Stamp, compare, merge_cell};
use grid::{Grid, put};
use history::{Cell, Clock, Handling, Letter, Post, Refusal};
use measures::{FlowCount, Lengths, Measure, Measured, Span, mark_value};
use std::test::Fail;

// The number of the state that a message moves to, or the refusal's.
fn handling_number(post: Post, handling: Handling) -> Result<u8, u8> {
    post.after(handling).map(u8::from).map_err(u8::from)
}

#[test]
fn a_message_is_sent_once_and_received_once(rt: HostRuntime) {
    assert_eq!(rt;
        [
            handling_number(Post::Unsent, Handling::Sending),
            handling_number(Post::OnItsWay, Handling::Receiving),
            handling_number(Post::OnItsWay, Handling::Sending),
            handling_number(Post::Delivered, Handling::Sending),
            handling_number(Post::Unsent, Handling::Receiving),
            handling_number(Post::Delivered, Handling::Receiving),
        ],
        [Ok(1), Ok(2), Err(7), Err(7), Err(8), Err(9)]
    );
}

// The number of the answer for the stamps p of unit i and q of unit j, or the refusal's.
fn order_number(p: &[Clock], q: &[Clock], i: usize, j: usize) -> Result<u8, u8> {
    let p = Stamp { clocks: p, unit: i };
    let q = Stamp { clocks: q, unit: j };
    compare(p, q).map(u8::from).map_err(u8::from)
}

// Unit 0 marks a and b, unit 2 marks d, unit 1 hears of a and d and marks e; unit 0 hears of e and of a further mark of unit 1,
// and marks c.
#[test]
fn three_flows_into_one_mark(rt: HostRuntime) {
    let a = [1, 0, 0];
    let b = [2, 0, 0];
    let c = [3, 2, 1];
    let e = [1, 1, 1];
    assert_eq!(rt;
        [
            order_number(&a, &a, 0, 0),
            order_number(&a, &c, 0, 0),
            order_number(&c, &a, 0, 0),
            order_number(&b, &e, 0, 1),
            order_number(&e, &c, 1, 0),
            order_number(&c, &e, 0, 1),
        ],
        [Ok(0), Ok(1), Ok(2), Ok(3), Ok(1), Ok(2)]
    );
}

#[test]
fn comparisons_that_are_refused(rt: HostRuntime) {
    let most = [1; 16];
    let long = [1; 17];
    assert_eq!(rt;
        [
            order_number(&[], &[], 0, 0),
            order_number(&[1], &[1, 0], 0, 0),
            order_number(&long, &long, 17, 0),
            order_number(&[1, 0], &[1, 0], 2, 0),
            order_number(&[1, 0], &[1, 0], 0, 2),
            order_number(&most, &most, 15, 0),
        ],
        [Err(12), Err(12), Err(12), Err(4), Err(4), Ok(1)]
    );
}

// What a unit has of another, once it meets a cell of a message.
fn met_cell<V: Copy>(start: V, old: Cell<V>, new: Cell<V>) -> Cell<V> {
    merge_cell(start, old, new)
}

#[test]
fn cells_that_meet(rt: HostRuntime) {
    let old = Cell {
        clock: 1,
        flag: true,
        value: (),
    };
    let new = Cell {
        clock: 2,
        flag: true,
        value: (),
    };
    let passed = Cell {
        clock: 2,
        flag: false,
        value: (),
    };
    assert_eq!(rt;
        [
            met_cell((), old, new),
            met_cell((), new, old),
            met_cell((), old, passed),
            met_cell((), new, new),
            met_cell((), new, passed),
            met_cell((), passed, new),
        ],
        [new, new, passed, new, passed, passed]
    );
}

// What a receipt answers on a board of that size, whose grids lie in these cells.
fn receipt<P: Payload>(
    payload: P,
    units: usize,
    messages: usize,
    clocks: &mut [Clock],
    flags: &mut [bool],
    values: &mut [P::Value],
    posts: &mut [Post],
    unit: usize,
    message: usize,
) -> Result<Clock, Refusal>
where
    P: Drop,
{
    let clocks = &mut Grid::new(clocks, units);
    let flags = &mut Grid::new(flags, units);
    let values = &mut Grid::new(values, units);
    let board = Board::of_size(payload, units, messages)?;
    board.receive(clocks, flags, values, posts, unit, message)
}

// What is answered where unit 0 of a board of 2 units receives the one message.
fn news_receipt<M: Measure>(
    measure: M,
    clocks: &mut [Clock],
    flags: &mut [bool],
    values: &mut [M::Value],
) -> Result<Clock, Refusal>
where
    M: Drop,
{
    let mut posts = [Post::OnItsWay];
    receipt(
        Measured { measure },
        2,
        1,
        clocks,
        flags,
        values,
        &mut posts,
        0,
        0,
    )
}

// Unit 0 marked and sent messages 0 and 1; unit 1 received 0, marked and sent 2; unit 2 received 1 and now receives 2, which overtook it.
// Rows of three cells: units 0 to 2, messages 0 to 2, and one cell that is not the board's.
#[test]
fn a_message_overtaken_by_an_indirect_one(rt: HostRuntime) {
    let mut clocks = [1, 0, 0, 1, 1, 0, 1, 0, 0, 1, 0, 0, 1, 0, 0, 1, 1, 0, 7];
    let mut flags = [
        true, false, false, false, true, false, true, false, false, true, false, false, true,
        false, false, false, true, false, true,
    ];
    let mut posts = [Post::Delivered, Post::OnItsWay, Post::OnItsWay];
    let answer = receipt(
        Bare::new(),
        3,
        3,
        &mut clocks,
        &mut flags,
        &mut [(); 18],
        &mut posts,
        2,
        2,
    );
    assert_eq!(rt; answer, Ok(0));
    assert_eq!(rt;
        clocks,
        [1, 0, 0, 1, 1, 0, 1, 1, 0, 1, 0, 0, 1, 0, 0, 1, 1, 0, 7]
    );
    assert_eq!(rt;
        flags,
        [
            true, false, false, false, true, false, false, true, false, true, false, false, true,
            false, false, false, true, false, true,
        ]
    );
}

// A unit that has received two messages from one mark counts that mark's flows once.
#[test]
fn two_messages_from_one_mark(rt: HostRuntime) -> Result<(), Fail> {
    let flagged = Cell {
        clock: 1,
        flag: true,
        value: 5,
    };
    let passed = Cell {
        clock: 1,
        flag: false,
        value: 1,
    };
    assert_eq!(rt;
        [
            met_cell(1, flagged, flagged).value,
            met_cell(1, flagged, passed).value,
        ],
        [5, 1]
    );
    let mut clocks = [1, 0, 1, 0, 2, 1];
    let mut flags = [true, false, true, false, true, true];
    let mut values = [5, 1, 5, 1, 3, 4, 9];
    let count = FlowCount::new(1)?;
    let answer = news_receipt(count, &mut clocks, &mut flags, &mut values);
    assert_eq!(rt; (answer, values), (Ok(2), [3, 4, 5, 1, 3, 4, 9]));
    Ok(())
}

// The positions of the flags that are set, which are then set no more.
fn taken_positions(flags: &mut [bool]) -> u64 {
    take_positions(flags)
}

#[test]
fn positions_of_flags(rt: HostRuntime) {
    let mut flags = [true, false, true];
    let mut many = [true; 65];
    assert_eq!(rt;
        [
            taken_positions(&mut flags),
            taken_positions(&mut flags),
            taken_positions(&mut many),
        ],
        [5, 0, u64::MAX]
    );
    assert_eq!(rt; many, [false; 65]);
}

// The value of a mark.
fn worth<M: Measure>(
    measure: &M,
    predecessors: u64,
    values: &[M::Value],
    label: Letter,
) -> M::Value {
    mark_value(measure, predecessors, values, label)
}

// A mark joins the values of its immediate predecessors, here of units 0 and 2; one that has none begins a flow.
#[test]
fn marks_join_the_flows_before_them(rt: HostRuntime) -> Result<(), Fail> {
    let count = FlowCount::new(1)?;
    let span = Span::new(3, 9)?;
    let pattern = pattern()?;
    let short = Lengths {
        shortest: 1,
        longest: 1,
    };
    let long = Lengths {
        shortest: 2,
        longest: 3,
    };
    assert_eq!(rt;
        [
            worth(&count, 5, &[2, 7, 1], 0),
            worth(&count, 0, &[2, 7, 1], 0),
            worth(&count, 1 << 63 | 1, &[2, 7, 1], 0),
        ],
        [3, 1, 3]
    );
    assert_eq!(rt;
        worth(&span, 5, &[short, Lengths::default(), long], 2),
        Lengths {
            shortest: 2,
            longest: 4,
        }
    );
    assert_eq!(rt;
        [
            worth(&pattern, 5, &[0x02, 0x01, 0x04], 2),
            worth(&pattern, 0, &[0x02, 0x01, 0x04], 1),
        ],
        [0x18, 0x02]
    );
    Ok(())
}

// Clocks and flags of 2 units and a message, which brings unit 0 news of unit 1.
const NEWS: ([Clock; 6], [bool; 6]) = (
    [0, 0, 0, 2, 0, 2],
    [false, false, false, true, false, true],
);

// Rows are filled where all of them are there, and read where they are there.
#[test]
fn rows_of_a_grid(rt: HostRuntime) {
    let mut cells = [9, 9, 0x01, 0x04, 9, 9, 9];
    let rows = &mut Grid::new(&mut cells, 2);
    rows.fill_rows(4, 0x02);
    let unfilled = rows.cell(0, 1);
    rows.fill_rows(1, 0x02);
    assert_eq!(rt; [unfilled, rows.cell(0, 1)], [Some(9), Some(0x02)]);
    assert_eq!(rt; [rows.row(0), rows.row(3)], [Some(&[0x02, 0x02][..]), None]);
}

// One grid type for state sets and for spans: a new row, a send that copies one and a receipt that takes what is newer.

// Makes row 0 new, copies row 1 to row 2, and copies nothing from a row that is not there.
fn write_rows(sets: &mut [u64]) {
    let rows = &mut Grid::new(sets, 2);
    rows.fill_rows(1, 0x01);
    rows.copy_row(1, 2);
    rows.copy_row(3, 2);
}

#[test]
fn rows_of_state_sets(rt: HostRuntime) -> Result<(), Fail> {
    let mut sets = [9, 9, 0x01, 0x04, 9, 9, 9];
    write_rows(&mut sets);
    let (mut clocks, mut flags) = NEWS;
    let answer = news_receipt(pattern()?, &mut clocks, &mut flags, &mut sets);
    assert_eq!(rt;
        (answer, sets),
        (Ok(0), [0x01, 0x04, 0x01, 0x04, 0x01, 0x04, 9])
    );
    Ok(())
}

#[test]
fn rows_of_spans(rt: HostRuntime) -> Result<(), Fail> {
    let two = Lengths {
        shortest: 2,
        longest: 2,
    };
    let mut ends = [Lengths::default(); 7];
    put(&mut ends, 5, two);
    put(&mut ends, 7, two);
    let (mut clocks, mut flags) = NEWS;
    let span = Span::new(3, 9)?;
    let answer = news_receipt(span, &mut clocks, &mut flags, &mut ends);
    assert_eq!(rt;
        (answer, [ends[0], ends[1]]),
        (Ok(0), [Lengths::default(), two])
    );
    Ok(())
}
