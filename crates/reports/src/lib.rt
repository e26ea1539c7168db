//! The report on an input of a pattern, a relabelling and a recording: a line for each mark, and how the recording ends. Bytes come in, are read
//! command by command and handed to a board, and go out as lines; the law of reports says what the lines mean.
//! Stands on boards under measures (`measures`), and on what programs read and print (`text`).
#![tactic(auto)]

mod buffers;
mod commands;
mod faults;
mod lines;
mod recordings;
mod reports;

pub use reports::{answer, report};
