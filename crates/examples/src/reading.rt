//! What the readers of patterns and relabellings refuse, with the place, and what they take.
use measures::{Fault, Pattern, Relabelling};
use text::Cursor;

// Labels: 0 beacon, 1 waiting, 2 sound. A flow is good if it is made of rounds, one or more: a waiting, then waitings and beacons of which the
// last is a beacon, then a sound.
const PATTERN: [u8; 27] = [
    0x20, 5, 3, 0, 0x08, 0, 0, 0, 0, 0, 0, 0, 4, 1, 4, 2, 1, 4, 2, 1, 3, 4, 1, 4, 4, 4, 4,
];

// A relabelling: 0 waiting, 1 sound, 2 beacon.
const RELABELLING: [u8; 5] = [0x30, 3, 1, 2, 0];

// One byte changed: its place and the new byte, and the refusal's number and place.
const BAD_PATTERNS: [(usize, u8, u8, usize); 16] = [
    (0, 0x21, 14, 0),
    (0, 0x00, 14, 0),
    (1, 0, 15, 1),
    (1, 65, 15, 1),
    (2, 0, 16, 2),
    (2, 65, 16, 2),
    (3, 5, 17, 3),
    (3, 255, 17, 3),
    (4, 0x28, 18, 4),
    (5, 0x01, 18, 4),
    (11, 0x80, 18, 4),
    (1, 6, 19, 27),
    (2, 4, 19, 27),
    (12, 5, 20, 12),
    (19, 255, 20, 19),
    (26, 5, 20, 26),
];

// The same for the relabelling.
const BAD_RELABELLINGS: [(usize, u8, u8, usize); 8] = [
    (27, 0x20, 22, 27),
    (27, 0x31, 22, 27),
    (28, 0, 16, 28),
    (28, 65, 16, 28),
    (28, 4, 19, 32),
    (29, 3, 20, 29),
    (30, 255, 20, 30),
    (31, 3, 20, 31),
];

// The pattern, and the relabelling after it.
fn pattern_and_relabelling() -> [u8; 32] {
    let mut bytes = [0; 32];
    bytes[..27].copy_from_slice(&PATTERN);
    bytes[27..].copy_from_slice(&RELABELLING);
    bytes
}

/// The pattern of beacon, waiting and sound.
pub(crate) fn pattern() -> Result<Pattern, Fault> {
    Pattern::read(&PATTERN)
}

/// The same pattern under other labels: 0 waiting, 1 sound, 2 beacon.
pub(crate) fn other_labels() -> Result<Relabelling<Pattern>, Fault> {
    let cursor = Cursor {
        input: &RELABELLING,
        place: 0,
    };
    Relabelling::read(cursor, pattern()?)
}

// The number and place of a fault.
fn fault_parts(fault: Fault) -> (u8, usize) {
    (u8::from(fault.refusal), fault.place)
}

// The size of the pattern, or the number and place of its refusal.
fn pattern_answer(input: &[u8]) -> Result<usize, (u8, usize)> {
    Pattern::read(input)
        .map(|pattern| pattern.size())
        .map_err(fault_parts)
}

// The same of the relabelling after the pattern.
fn relabelling_answer(input: &[u8]) -> Result<usize, (u8, usize)> {
    let pattern = Pattern::read(input).map_err(fault_parts)?;
    let place = pattern.size();
    Relabelling::read(Cursor { input, place }, pattern)
        .map(|relabelling| relabelling.size())
        .map_err(fault_parts)
}

#[test]
fn patterns_with_one_bad_byte(rt: HostRuntime) {
    for (at, byte, number, place) in BAD_PATTERNS {
        let mut bytes = PATTERN;
        if let Some(old) = bytes.get_mut(at) {
            *old = byte;
        }
        assert_eq!(rt; pattern_answer(&bytes), Err((number, place)));
    }
}

#[test]
fn patterns_cut_short(rt: HostRuntime) {
    assert_eq!(rt;
        [
            pattern_answer(&[]),
            pattern_answer(&[0x31, 0, 0, 0, 0, 0, 0, 0, 0, 0, 0]),
            pattern_answer(&PATTERN[0..11]),
            pattern_answer(&PATTERN[0..12]),
            pattern_answer(&PATTERN[0..26]),
            pattern_answer(&PATTERN),
            pattern_answer(&pattern_and_relabelling()),
        ],
        [
            Err((13, 0)),
            Err((13, 11)),
            Err((13, 11)),
            Err((19, 12)),
            Err((19, 26)),
            Ok(27),
            Ok(27),
        ]
    );
}

#[test]
fn relabellings_with_one_bad_byte(rt: HostRuntime) {
    for (at, byte, number, place) in BAD_RELABELLINGS {
        let mut bytes = pattern_and_relabelling();
        if let Some(old) = bytes.get_mut(at) {
            *old = byte;
        }
        assert_eq!(rt; relabelling_answer(&bytes), Err((number, place)));
    }
}

#[test]
fn relabellings_cut_short(rt: HostRuntime) {
    let bytes = pattern_and_relabelling();
    assert_eq!(rt;
        [
            relabelling_answer(&bytes[0..27]),
            relabelling_answer(&bytes[0..28]),
            relabelling_answer(&bytes[0..29]),
            relabelling_answer(&bytes[0..31]),
            relabelling_answer(&bytes),
        ],
        [
            Err((22, 27)),
            Err((19, 28)),
            Err((19, 29)),
            Err((19, 31)),
            Ok(5),
        ]
    );
}
