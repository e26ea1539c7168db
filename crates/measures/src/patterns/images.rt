//! Sets of states under one label.
ghost use Rattle.std.specs.Prelude.{◌≡◌, ◌<◌};
ghost use Rattle.measures.specs.Automata.{next, image, Image};

use super::Pattern;
use bitset::{below, split_lowest};

impl Pattern {
    // The next state of q under the label l.
    fn next(&self, q: u8, l: u8) -> u8
        requires state { q < self.now.head.states.number }
        requires label { l < self.now.head.labels.number }
        ensures value { result ≡ next self.now.head.labels.number self.now.table l q }
        ensures state { result < self.now.head.states.number }
    {
        self.table[q as usize * self.head.labels.number as usize + l as usize]
    }

    // The states to which the table takes the members of the set that are states, under the label l.
    pub(super) fn image(&self, set: u64, l: u8) -> u64
        requires { l < self.now.head.labels.number }
        ensures value { let to = next self.now.head.labels.number self.now.table l in
            result ≡ image to self.now.head.states.number set }
        ensures members { let to = next self.now.head.labels.number self.now.table l in
            Image to self.now.head.states.number set result }
    {
        let mut out = 0;
        let mut rest = below(set, self.head.states.number);
        while let Some((q, others)) = split_lowest(rest) {
            out |= 1 << self.next(q, l);
            rest = others;
        }
        out
    }
}
