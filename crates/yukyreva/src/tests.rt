//! Reports as they are written, byte for byte.
use reports::report;
use std::process::Abort;
use std::test::Fail;

// A pattern of 5 states and 3 labels, in 27 bytes; and the relabelling after it: label 0 is waiting, 1 sound and 2 beacon.
// A flow is good if it is made of rounds, one or more: a waiting, then waitings and beacons of which the last is a beacon, then a sound.
const FRONT: [u8; 32] = [
    0x20, 5, 3, 0, 0x08, 0, 0, 0, 0, 0, 0, 0, 4, 1, 4, 2, 1, 4, 2, 1, 3, 4, 1, 4, 4, 4, 4, 0x30, 3,
    1, 2, 0,
];

// A board of two units and two messages. The first command stands at byte 32, the second at 35.
const MAKE: [u8; 3] = [0x10, 2, 2];

// A board of three messages: 0 is on its way, 1 is received, 2 was never sent. The next command stands at byte 44.
const BEGUN: [u8; 12] = [0x10, 2, 3, 1, 0, 0, 1, 1, 1, 2, 0, 1];

// The beacon at unit 0, and the lines of the first two of them.
const BEACON: [u8; 3] = [3, 0, 2];

const FIRST: &str = "0 1 0 0000000000000010 0 0\n";

const SECOND: &str = "0 2 1 0000000000000010 0 0\n";

const END: [u8; 1] = [0];

fn assert_report(rt: &(impl Abort + AllocGlobal), input: &[u8], text: &str) -> Result<(), Fail> {
    let out = report(rt.alloc(), input)?;
    assert!(rt; out.as_slice() == text.as_bytes(), "not {text}");
    Ok(())
}

// The report on the front and a recording in pieces is the header and a text in pieces.
fn assert_report_on(
    rt: &(impl Abort + AllocGlobal),
    recording: &[&[u8]],
    text: &[&str],
) -> Result<(), Fail> {
    let mut input = FRONT.to_vec(rt.alloc())?;
    for piece in recording {
        input.extend_from_slice(piece)?;
    }
    let mut expected = String::new(rt.alloc());
    expected.push_str("unit mark preds states some all\n")?;
    for piece in text {
        expected.push_str(piece)?;
    }
    assert_report(rt, &input, &expected)
}

// A command breaks a recording off wherever it stands after the calls of BEGUN; the lines before it stay.
fn assert_broken(rt: &(impl Abort + AllocGlobal), command: &[u8], fault: &str) -> Result<(), Fail> {
    assert_report_on(
        rt,
        &[&BEGUN, command, &BEACON, &END],
        &["fault ", fault, " 44\n"],
    )?;
    assert_report_on(
        rt,
        &[&BEGUN, &BEACON, command, &BEACON, &END],
        &[FIRST, "fault ", fault, " 47\n"],
    )?;
    assert_report_on(
        rt,
        &[&BEGUN, &BEACON, &BEACON, command],
        &[FIRST, SECOND, "fault ", fault, " 50\n"],
    )
}

#[test]
fn the_lost_wake_up(rt: HostRuntime) -> Result<(), Fail> {
    assert_report_on(
        &rt,
        &[
            &MAKE,
            &BEACON,
            &[1, 0, 1, 3, 1, 0, 1, 1, 0, 2, 1, 1, 2, 0, 0, 3, 1, 1],
            &END,
        ],
        &[
            FIRST,
            "1 1 0 0000000000000002 0 0\n1 2 3 0000000000000010 0 0\nleft 0\n",
        ],
    )?;
    assert_report_on(&rt, &[&MAKE, &[2, 0, 0], &END], &["fault B 8 35\n"])
}

// A round at one unit fits. Of the two flows that end at unit 1's sound, one is a round, and one begins with a beacon: some fit, and not all.
#[test]
fn rounds_that_fit(rt: HostRuntime) -> Result<(), Fail> {
    assert_report_on(
        &rt,
        &[&MAKE, &[3, 0, 0, 3, 0, 2, 3, 0, 1, 1, 0, 0], &END],
        &[
            "0 1 0 0000000000000002 0 0\n0 2 1 0000000000000004 0 0\n",
            "0 3 1 0000000000000008 1 1\nleft 1\n",
        ],
    )?;
    assert_report_on(
        &rt,
        &[
            &MAKE,
            &[3, 0, 0, 3, 0, 2, 1, 0, 0, 3, 1, 2, 2, 1, 0, 3, 1, 1],
            &END,
        ],
        &[
            "0 1 0 0000000000000002 0 0\n0 2 1 0000000000000004 0 0\n",
            "1 1 0 0000000000000010 0 0\n1 2 3 0000000000000018 1 0\nleft 0\n",
        ],
    )
}

// The first bytes of the front, so many, with another byte at a place: a pattern's or a relabelling's fault stands alone.
#[test]
fn faults_of_the_front(rt: HostRuntime) -> Result<(), Fail> {
    for (length, place, byte, text) in [
        (0, 0, 0x20, "fault P 13 0\n"),
        (1, 0, 0x21, "fault P 13 1\n"),
        (11, 0, 0x20, "fault P 13 11\n"),
        (12, 0, 0x21, "fault P 14 0\n"),
        (32, 1, 0, "fault P 15 1\n"),
        (32, 1, 65, "fault P 15 1\n"),
        (32, 2, 0, "fault P 16 2\n"),
        (32, 2, 65, "fault P 16 2\n"),
        (32, 3, 5, "fault P 17 3\n"),
        (32, 4, 0x20, "fault P 18 4\n"),
        (32, 11, 0x80, "fault P 18 4\n"),
        (12, 0, 0x20, "fault P 19 12\n"),
        (20, 12, 5, "fault P 19 20\n"),
        (26, 0, 0x20, "fault P 19 26\n"),
        (27, 12, 5, "fault P 20 12\n"),
        (32, 19, 5, "fault P 20 19\n"),
        (32, 26, 255, "fault P 20 26\n"),
        (27, 0, 0x20, "fault L 22 27\n"),
        (28, 27, 0x20, "fault L 22 27\n"),
        (28, 0, 0x20, "fault L 19 28\n"),
        (32, 28, 0, "fault L 16 28\n"),
        (32, 28, 65, "fault L 16 28\n"),
        (29, 0, 0x20, "fault L 19 29\n"),
        (31, 29, 3, "fault L 19 31\n"),
        (32, 29, 3, "fault L 20 29\n"),
        (32, 30, 3, "fault L 20 30\n"),
        (32, 31, 255, "fault L 20 31\n"),
    ] {
        let mut input = FRONT.to_vec(rt.alloc())?;
        input.truncate(length);
        if let Some(at) = input.get_mut(place) {
            *at = byte;
        }
        assert_report(&rt, &input, text)?;
    }
    Ok(())
}

// Faults of a recording's form, and then of the board.
#[test]
fn commands_that_break_off(rt: HostRuntime) -> Result<(), Fail> {
    for (command, fault) in [
        ([4, 0, 0].as_slice(), "R 24"),
        (&[0x10, 2, 2], "R 27"),
        (&[1, 2, 0], "B 4"),
        (&[2, 2, 0], "B 4"),
        (&[3, 2, 0], "B 4"),
        (&[1, 0, 3], "B 5"),
        (&[2, 0, 3], "B 5"),
        (&[1, 0, 0], "B 7"),
        (&[1, 0, 1], "B 7"),
        (&[2, 0, 2], "B 8"),
        (&[2, 0, 1], "B 9"),
        (&[3, 0, 3], "B 6"),
        (&[3, 1, 255], "B 6"),
    ] {
        assert_broken(&rt, command, fault)?;
    }
    Ok(())
}

// Faults at the first command, and at the one after it.
#[test]
fn commands_that_cannot_begin(rt: HostRuntime) -> Result<(), Fail> {
    for (recording, text) in [
        ([].as_slice(), "fault R 23 32\n"),
        (&[5], "fault R 24 32\n"),
        (&[1], "fault R 25 32\n"),
        (&[0x10, 2], "fault R 25 32\n"),
        (&[0], "fault R 26 32\n"),
        (&[0, 7, 7], "fault R 26 32\n"),
        (&[3, 0, 0, 0], "fault R 26 32\n"),
        (&[0x10, 0, 2, 0], "fault B 1 32\n"),
        (&[0x10, 17, 2], "fault B 1 32\n"),
        (&[0x10, 2, 2], "fault R 23 35\n"),
        (&[0x10, 2, 2, 255], "fault R 24 35\n"),
        (&[0x10, 2, 2, 0x10, 2], "fault R 25 35\n"),
        (&[0x10, 2, 2, 0x10, 0, 0], "fault R 27 35\n"),
        (&[0x10, 2, 2, 0, 0], "fault R 28 36\n"),
        (&[0x10, 2, 2, 1, 2, 2], "fault B 4 35\n"),
        (&[0x10, 2, 2, 2, 2, 2], "fault B 4 35\n"),
        (&[0x10, 2, 2, 3, 2, 3], "fault B 4 35\n"),
        (&[0x10, 2, 2, 1, 1, 2], "fault B 5 35\n"),
        (&[0x10, 2, 0, 2, 1, 0], "fault B 5 35\n"),
        (&[0x10, 2, 2, 3, 1, 3], "fault B 6 35\n"),
    ] {
        assert_report_on(&rt, &[recording], &[text])?;
    }
    Ok(())
}

// Faults at the last command, after the line of a mark.
#[test]
fn commands_that_cannot_end(rt: HostRuntime) -> Result<(), Fail> {
    for (command, text) in [
        ([].as_slice(), "fault R 23 38\n"),
        (&[1, 0, 0], "fault R 23 41\n"),
        (&[1], "fault R 25 38\n"),
        (&[2, 0], "fault R 25 38\n"),
        (&[3, 9], "fault R 25 38\n"),
        (&[2, 1, 0], "fault B 8 38\n"),
        (&[0, 0], "fault R 28 39\n"),
        (&[0, 0x10, 0, 0], "fault R 28 39\n"),
        (&[1, 0, 1, 0], "left 1\n"),
    ] {
        assert_report_on(&rt, &[&MAKE, &BEACON, command], &[FIRST, text])?;
    }
    Ok(())
}

// A relabelling of 4 labels, 21,833 marks of waiting and the end come to 65,536 bytes.
#[test]
fn the_largest_input_and_one_byte_more(rt: HostRuntime) -> Result<(), Fail> {
    let mut input = FRONT.to_vec(rt.alloc())?;
    input.truncate(28);
    input.extend_from_slice(&[4, 1, 2, 0, 0, 0x10, 1, 0])?;
    for _ in 0..21833 {
        input.extend_from_slice(&[3, 0, 0])?;
    }
    input.push(0)?;
    assert_eq!(rt; input.len(), 65536);
    let out = report(rt.alloc(), &input)?;
    assert_eq!(rt; out.len(), 665756);
    assert!(rt; out.ends_with(b"\n0 21833 1 0000000000000002 0 0\nleft 0\n"));
    input.push(0)?;
    assert_report(&rt, &input, "fault I 29 65536\n")
}
