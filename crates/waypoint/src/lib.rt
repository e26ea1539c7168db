//! A judge of one's own: does a flow pass a waypoint, that is, has one of its marks a given label?
//! docs/OWN-MEASURE.md goes through it. Stands on `measures`; its tests put it on a board.
#![tactic(auto)]

ghost use Rattle.std.specs.Prelude.{◌≡◌, ◌<◌, ◌≤◌, ◌↔◌, Contains, IsSome, IfSome, ⊤};
ghost use Rattle.measures.specs.Limits.{most_labels};
ghost use Rattle.waypoint.specs.Waypoints.{waypoint, waypoint_lawful};

#[cfg(test)]
mod tests;

use history::Letter;
use measures::{Judge, MOST_LABELS, Measure};

/// Of the flows that end at a mark: whether some passes the waypoint, and whether each does.
#[derive(Clone, Copy, PartialEq, Eq, Debug)]
pub struct Passages {
    pub some: bool,
    pub each: bool,
}

/// A waypoint: one of so many labels. A word is good if it contains it.
#[derive(Clone, Copy, PartialEq, Eq, Debug)]
pub struct Waypoint {
    pub labels: u8,
    pub label: u8,
    ghost known: { label < labels },
    ghost few: { labels ≤ most_labels },
}

impl Waypoint {
    /// The waypoint `label` among `labels` labels, numbered from 0. None unless it is one of them,
    /// and they are at most 64.
    pub fn new(labels: u8, label: u8) -> Option<Waypoint>
        ensures made { IsSome result ↔ ((label < labels) × (labels ≤ most_labels)) }
        ensures fields { IfSome result (λ w. (w.labels ≡ labels) × (w.label ≡ label)) }
    {
        if label < labels && labels <= MOST_LABELS {
            Some(Waypoint { labels, label })
        } else {
            None
        }
    }
}

impl Measure for Waypoint {
    type Value = Passages;

    ghost meaning = { λ w. waypoint w.labels w.label };

    ghost admits = { λ _ _. ⊤ };

    ghost lawful = { λ w. waypoint_lawful w.labels w.label w.known w.few };

    fn labels(&self) -> u8 {
        self.labels
    }

    fn start(&self) -> Passages {
        Passages {
            some: false,
            each: false,
        }
    }

    fn step(&self, v: Passages, l: Letter) -> Passages {
        if l == self.label {
            Passages {
                some: true,
                each: true,
            }
        } else {
            v
        }
    }

    fn join(&self, a: Passages, b: Passages) -> Passages {
        Passages {
            some: a.some || b.some,
            each: a.each && b.each,
        }
    }
}

impl Judge for Waypoint {
    ghost good = { λ w word. Contains word w.label };

    ghost some_of = { λ _ v. v.some };

    ghost all_of = { λ _ v. v.each };

    fn some(&self, v: Passages) -> bool {
        v.some
    }

    fn all(&self, v: Passages) -> bool {
        v.each
    }
}
