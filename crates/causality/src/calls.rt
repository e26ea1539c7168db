//! Calls handed to a board one by one, as values.
ghost use Rattle.causality.specs.Boards.{Obeys, memory, setup_of};

use super::boards::Board;
use super::payloads::Payload;
use grid::Grid;
use history::{Answer, Call, Clock, Event, Post, Refusal};

impl<P: Payload> Board<P> {
    /// Hands one call to the board: a send, a receipt or a mark, with the answer and the refusals of `send` (3, 4, 5, 7), `receive` (3, 4, 5, 8, 9) or
    /// `mark` (3, 4, 6, 10); a refusal changes nothing.
    pub fn hand(
        &self,
        clocks: &mut Grid<'_, Clock>,
        flags: &mut Grid<'_, bool>,
        values: &mut Grid<'_, P::Value>,
        posts: &mut [Post],
        call: Call,
    ) -> Result<Answer<P::Value>, Refusal>
        ensures { Obeys (setup_of self.now) call
            (memory clocks.old flags.old values.old posts.old)
            (memory clocks.new flags.new values.new posts.new) result }
    {
        let unit = call.unit;
        match call.event {
            Event::Send(message) => {
                let sent = self.send(clocks, flags, values, posts, unit, message);
                sent.map(|own| Answer::Sent(own))
            }
            Event::Receive(message) => {
                let received = self.receive(clocks, flags, values, posts, unit, message);
                received.map(|own| Answer::Received(own))
            }
            Event::Mark(label) => {
                let marked = self.mark(clocks, flags, values, posts, unit, label);
                marked.map(|mark| Answer::Marked(mark))
            }
        }
    }
}
