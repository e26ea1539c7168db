//! What the units of a handset did and in which causal order, the rules by which a board follows it, and the law over runs.
//!
//! Nearly all of it is in specs/ and proofs/. In code stand the types that the rules and the code share: events, calls and answers, cells of rows, what
//! becomes of a message, refusals, and the orders of two marks. Stands on `bitset`.
#![tactic(auto)]

pub mod calls;
pub mod cells;
pub mod laws;
pub mod messages;
pub mod precedence;
pub mod refusals;

pub use calls::{Answer, Call, Clock, Event, Letter, Marked};
pub use cells::Cell;
pub use messages::{Handling, Post};
pub use precedence::Precedence;
pub use refusals::Refusal;
