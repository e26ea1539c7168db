//! Worked values of the flow count, the span, the pattern and a relabelling, and what their makers refuse.
use super::reading::{other_labels, pattern};
use history::Letter;
use measures::{FlowCount, Judge, Lengths, Measure, Refusal, Span, Verdict, value_along};
use std::test::Fail;

// The number of the refusal, if there is one.
fn refusal_number<T: Drop>(made: Result<T, Refusal>) -> Option<u8> {
    made.err().map(u8::from)
}

// The same of a flow count over that many labels.
fn count_refusal(labels: u8) -> Option<u8> {
    refusal_number(FlowCount::new(labels))
}

// The same of a span.
fn span_refusal(labels: u8, limit: u16) -> Option<u8> {
    refusal_number(Span::new(labels, limit))
}

// The value of a word.
fn word_value<M: Measure>(measure: &M, word: &[Letter]) -> M::Value {
    value_along(measure, word)
}

// Whether some, and whether all, of the words of a value are good.
fn verdict<J: Judge>(judge: &J, value: J::Value) -> Verdict {
    Verdict {
        some: judge.some(value),
        all: judge.all(value),
    }
}

#[test]
fn label_counts_and_limits(rt: HostRuntime) {
    assert_eq!(rt;
        [
            count_refusal(0),
            count_refusal(1),
            count_refusal(64),
            count_refusal(65),
        ],
        [Some(16), None, None, Some(16)]
    );
    assert_eq!(rt;
        [
            span_refusal(0, 65535),
            span_refusal(65, 0),
            span_refusal(64, 65534),
            span_refusal(64, 65535),
        ],
        [Some(16), Some(16), None, Some(21)]
    );
}

#[test]
fn counts_are_capped(rt: HostRuntime) -> Result<(), Fail> {
    let count = FlowCount::new(3)?;
    assert_eq!(rt;
        [
            word_value(&count, &[0, 1, 2]),
            count.join(2, 3),
            count.join(4294967294, 1),
            count.join(4294967295, 4294967295),
        ],
        [1, 5, 4294967295, 4294967295]
    );
    Ok(())
}

#[test]
fn spans_have_two_ends(rt: HostRuntime) -> Result<(), Fail> {
    let span = Span::new(3, 2)?;
    let short = word_value(&span, &[0, 1]);
    let long = word_value(&span, &[0, 1, 3, 2]);
    let both = span.join(long, short);
    let full = Lengths {
        shortest: 65535,
        longest: 65535,
    };
    let values = [long, both, span.step(full, 0)];
    assert_eq!(rt;
        (values, verdict(&span, both)),
        (
            [
                Lengths {
                    shortest: 3,
                    longest: 3,
                },
                Lengths {
                    shortest: 2,
                    longest: 3,
                },
                full,
            ],
            Verdict {
                some: true,
                all: false,
            },
        )
    );
    Ok(())
}

// Waiting, beacon, sound: the beacon came while the player waited. Beacon, sound: it came too early.
#[test]
fn the_beacon_while_the_player_waits(rt: HostRuntime) -> Result<(), Fail> {
    let pattern = pattern()?;
    let good = word_value(&pattern, &[1, 0, 2]);
    let bad = word_value(&pattern, &[0, 2]);
    let both = pattern.join(good, bad);
    let values = [good, bad, both, pattern.step(both, 3)];
    let verdicts = [
        verdict(&pattern, good),
        verdict(&pattern, bad),
        verdict(&pattern, both),
    ];
    assert_eq!(rt;
        (values, verdicts),
        (
            [8, 16, 24, 24],
            [
                Verdict {
                    some: true,
                    all: true,
                },
                Verdict {
                    some: false,
                    all: false,
                },
                Verdict {
                    some: true,
                    all: false,
                },
            ],
        )
    );
    Ok(())
}

#[test]
fn other_labels_for_the_same_pattern(rt: HostRuntime) -> Result<(), Fail> {
    let relabelling = other_labels()?;
    let good = word_value(&relabelling, &[0, 2, 1]);
    assert_eq!(rt;
        (good, relabelling.all(good), relabelling.labels()),
        (8, true, 3)
    );
    Ok(())
}
