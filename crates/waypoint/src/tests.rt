//! The waypoint on a board: the verdict on the sound of the lost wake-up, and of a walk whose player
//! waits first.
use super::{Passages, Waypoint};
use causality::Board;
use grid::Grid;
use history::{Call, Event, Marked, Post, Refusal};
use measures::{JudgedValue, Measure, Measured, Verdict, mark_judged};
use std::test::Fail;

// The label of a mark where a beacon is heard.
const BEACON: u8 = 0;

// The label of a mark where the player begins to wait.
const WAITING: u8 = 1;

// The label of a mark where the sound starts.
const SOUND: u8 = 2;

// Do flows pass the beacon?
const PASSES_BEACON: Waypoint = Waypoint {
    labels: 3,
    label: BEACON,
};

// A call of a unit.
fn call(unit: usize, event: Event) -> Call {
    Call { unit, event }
}

// The player waits, tells the radio so, and then hears of the beacon: one flow ends at its sound.
fn player_waits_first() -> [Call; 6] {
    [
        call(1, Event::Mark(WAITING)),
        call(1, Event::Send(0)),
        call(0, Event::Receive(0)),
        call(0, Event::Mark(BEACON)),
        call(0, Event::Send(1)),
        call(1, Event::Receive(1)),
    ]
}

// The beacon is heard before the player waits, and each learns of the other's mark after its own:
// two flows end at the sound.
fn lost_wake_up() -> [Call; 6] {
    [
        call(0, Event::Mark(BEACON)),
        call(0, Event::Send(1)),
        call(1, Event::Mark(WAITING)),
        call(1, Event::Send(0)),
        call(1, Event::Receive(1)),
        call(0, Event::Receive(0)),
    ]
}

// What the player's sound is answered after some calls, on a board of two units and two messages.
fn sound_after(calls: &[Call]) -> Result<Marked<JudgedValue<Passages>>, Refusal> {
    let (mut clocks, mut flags) = ([0; 8], [false; 8]);
    let (mut values, mut posts) = ([PASSES_BEACON.start(); 8], [Post::UNSENT; 2]);
    let clocks = &mut Grid::new(&mut clocks, 2);
    let flags = &mut Grid::new(&mut flags, 2);
    let values = &mut Grid::new(&mut values, 2);
    let payload = Measured {
        measure: PASSES_BEACON,
    };
    let board = Board::make(payload, 2, 2, clocks, flags, values, &mut posts)?;
    for &call in calls {
        board.hand(clocks, flags, values, &mut posts, call)?;
    }
    mark_judged(&board, clocks, flags, values, &posts, 1, SOUND)
}

#[test]
fn the_one_flow_passes(rt: HostRuntime) -> Result<(), Fail> {
    let sound = sound_after(&player_waits_first())?;
    let yes = Verdict {
        some: true,
        all: true,
    };
    assert_eq!(rt; sound.predecessors, 1);
    assert_eq!(rt; sound.value.verdict, yes);
    Ok(())
}

#[test]
fn one_of_two_flows_passes(rt: HostRuntime) -> Result<(), Fail> {
    let sound = sound_after(&lost_wake_up())?;
    let divided = Verdict {
        some: true,
        all: false,
    };
    assert_eq!(rt; sound.predecessors, 3);
    assert_eq!(rt; sound.value.verdict, divided);
    Ok(())
}

#[test]
fn waypoints_that_are_no_label(rt: HostRuntime) {
    assert_eq!(rt; Waypoint::new(3, BEACON), Some(PASSES_BEACON));
    assert_eq!(rt; Waypoint::new(3, 3), None);
    assert_eq!(rt; Waypoint::new(65, BEACON), None);
}
