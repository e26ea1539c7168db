//! Calls on a board, and what accepted ones are answered: the types that the rules and the code share.

/// A number of marks of one unit. Its largest value is the most marks that a unit can make.
pub type Clock = u16;

/// A letter of a word: what the word says of one mark, which is the mark's label.
pub type Letter = u8;

/// What a unit does: it sends a message, receives one, or makes a mark with a label.
#[derive(Clone, Copy, PartialEq, Eq, Debug)]
pub enum Event {
    /// It sends the message of that number.
    Send(usize),
    /// It receives the message of that number.
    Receive(usize),
    /// It makes a mark with that label.
    Mark(u8),
}

/// A call: a unit, and what it does.
#[derive(Clone, Copy, PartialEq, Eq, Debug)]
pub struct Call {
    pub unit: usize,
    pub event: Event,
}

/// What an accepted mark is answered: its own number among its unit's marks, from 1; a number with bit v for each unit v that has an
/// immediate predecessor of it; and its value.
#[derive(Clone, Copy, PartialEq, Eq, Debug)]
pub struct Marked<V> {
    pub clock: Clock,
    pub predecessors: u64,
    pub value: V,
}

/// What an accepted call is answered: a send or a receipt the number of its unit's marks so far.
#[derive(Clone, Copy, PartialEq, Eq, Debug)]
pub enum Answer<V> {
    /// To a send: its unit's own clock.
    Sent(Clock),
    /// To a receipt: its unit's own clock.
    Received(Clock),
    /// To a mark.
    Marked(Marked<V>),
}
