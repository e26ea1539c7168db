//! Reads a pattern, a relabelling and a recording from standard input, and prints a line for each mark of the recording: what the longest flows
//! that end there come to, and whether some, and whether all, of them fit the pattern. The work is done by `reports`.
#![tactic(auto)]

#[cfg(test)]
mod tests;

use std::io;

fn main(rt: HostRuntime) -> io::Result<()> {
    reports::answer(rt.alloc(), rt.stdin(), &mut rt.stdout())
}
