//! Clocks and predecessors: the board, whose rows say what each unit knows of the others, and what stamps say of the order of marks. No measure
//! occurs here: what cells carry beside clocks and flags is a parameter.
//!
//! A unit is one process of a handset, a mark an event that it shows; what the terms mean and the law over runs stand in `history`. Stands on
//! `bitset`, `grid` and `history`.
#![tactic(auto)]

pub mod boards;
pub mod calls;
pub mod merging;
pub mod payloads;
pub mod stamps;

pub use boards::Board;
pub use merging::merge_cell;
pub use payloads::{Bare, Payload};
pub use stamps::{Stamp, compare};

/// A board has at most so many units.
pub const MAX_UNITS: usize = 16;

/// A board has at most so many messages.
pub const MAX_MESSAGES: usize = 255;
