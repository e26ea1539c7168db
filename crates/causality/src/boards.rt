//! A board follows the calls of a run: what each unit knows of the others' marks, and what is carried along their flows.
//!
//! Each call asks its questions first, each once and in its order, and the first no refuses it; what it does then cannot fail. The board's rows
//! and the states of its messages lie in memory that the caller brings to each call: a grid of clocks, one of flags and one of values, each as
//! wide as the board has units, with row u for unit u and row units + m for message m; and a slice with a place for each message.
ghost use Rattle.std.specs.Prelude.{◌≡◌, ◌+◌, ◌*◌, ◌<◌, ◌≤◌, ◌++◌, drop, length, replicate, count_by};
ghost use Rattle.history.specs.Limits.{most_messages, most_units};
ghost use Rattle.history.specs.Messages.{is_on_its_way, unsent};

use super::merging::merge_rows;
use super::payloads::Payload;
use super::{MAX_MESSAGES, MAX_UNITS};
use bitset::take_positions;
use grid::{Grid, RowPair, at_or, fill, put};
use history::{Clock, Handling, Marked, Post, Refusal};

/// A board of so many units and messages, whose cells carry a payload beside clocks and flags.
#[derive(Drop)]
pub struct Board<P: Payload> {
    units: usize,
    messages: usize,
    payload: P,
    ghost some_units: { 0 < units },
    ghost few_units: { units ≤ most_units },
    ghost few_messages: { messages ≤ most_messages },
}

impl<P: Payload> Board<P> {
    ghost use Rattle.std.specs.Prelude.{◌≡◌, ℕ, ◌+◌, ◌*◌, ◌<◌, ◌≤◌, length, replicate, true, MatchResult, slice_index, slice_index_or, slice_set};
    ghost use Rattle.history.specs.declared.calls.Answer.TheVariants.{Sent, Received, Marked as marked};
    ghost use Rattle.history.specs.declared.calls.Call.{Call};
    ghost use Rattle.history.specs.declared.calls.Event.TheVariants.{Mark, Receive, Send};
    ghost use Rattle.history.specs.declared.cells.Cell.{Cell};
    ghost use Rattle.history.specs.Messages.{post_after, unsent};
    ghost use Rattle.history.specs.Runs.{call};
    ghost use Rattle.causality.specs.Boards.{EachShows, Obeys, has_all_rows, has_room, left_answer, memory, payload_of, setup, setup_of, state_answer};
    ghost use Rattle.causality.specs.Calls.{Begins, IsRefused, MakeAnswer, MayMark, Ready, Room, handling_event, own_clock_in, result_as};
    ghost use Rattle.causality.specs.Marking.{WritesMark};
    ghost use Rattle.causality.specs.Payloads.{Reads};

    /// A board of that size, whose memory is still to be brought. Refuses units outside 1 to 16 (1) and more than 255 messages (2).
    pub fn of_size(payload: P, units: usize, messages: usize) -> Result<Board<P>, Refusal>
    where
        P: Drop,
        ensures { MakeAnswer payload units messages true result }
    {
        if units < 1 || units > MAX_UNITS {
            return Err(Refusal::UnitCount);
        }
        if messages > MAX_MESSAGES {
            return Err(Refusal::MessageCount);
        }
        Ok(Board {
            units,
            messages,
            payload,
        })
    }

    /// Makes a board: its rows become new, and no message is sent. Refuses as `of_size` does, and then memory that is too short (3); a
    /// refusal changes nothing.
    pub fn make(
        payload: P,
        units: usize,
        messages: usize,
        clocks: &mut Grid<'_, Clock>,
        flags: &mut Grid<'_, bool>,
        values: &mut Grid<'_, P::Value>,
        posts: &mut [Post],
    ) -> Result<Board<P>, Refusal>
    where
        P: Drop,
        ensures board { MakeAnswer payload units messages
            (has_room units messages (memory clocks.old flags.old values.old posts.old)) result }
        ensures begins { Begins (setup (P.rules payload) units messages)
            (memory clocks.old flags.old values.old posts.old)
            (memory clocks.new flags.new values.new posts.new) }
    {
        let board = Board::of_size(payload, units, messages)?;
        if !board.has_room(clocks, flags, values, posts) {
            return Err(Refusal::MemoryTooShort);
        }
        let rows = units + messages;
        clocks.fill_rows(rows, 0);
        flags.fill_rows(rows, false);
        values.fill_rows(rows, board.payload.start());
        begin_posts(posts, messages);
        Ok(board)
    }

    /// What the board's cells carry, as its maker handed it in.
    pub fn payload(&self) -> &P
        ensures { result.now ≡ payload_of self.now }
    {
        &self.payload
    }

    /// Whether the memory is long enough: the first question of each call. Whatever a memory holds, it shows some contents of a
    /// board (`shows`), so the promises of the calls, which speak of all contents that the memory shows, speak of every memory.
    #[tactic(auto, using(crate::proofs::LeftFacts::each_shows))]
    pub fn has_room(
        &self,
        clocks: &Grid<'_, Clock>,
        flags: &Grid<'_, bool>,
        values: &Grid<'_, P::Value>,
        posts: &[Post],
    ) -> bool
        ensures room { let b = setup_of self.now in
            let a = memory clocks.now flags.now values.now posts.now in
            result ≡ has_room b.units b.messages a }
        ensures shows { let b = setup_of self.now in
            EachShows b.rules.start b.units b.messages }
    {
        self.has_all_rows(clocks)
            && self.has_all_rows(flags)
            && self.has_all_rows(values)
            && self.messages <= posts.len()
    }

    // Whether a grid is as wide as the board has units, and long enough for all rows.
    fn has_all_rows<T: Copy>(&self, grid: &Grid<'_, T>) -> bool
        ensures { result ≡ has_all_rows self.now.units self.now.messages grid.now }
    {
        grid.width == self.units && (self.units + self.messages) * self.units <= grid.cells.len()
    }

    /// The questions that each call of a unit begins with: is the memory long enough (3), and is the unit there (4)? It only reads.
    pub fn ask_unit(
        &self,
        clocks: &Grid<'_, Clock>,
        flags: &Grid<'_, bool>,
        values: &Grid<'_, P::Value>,
        posts: &[Post],
        unit: usize,
    ) -> Result<(), Refusal>
        ensures { let b = setup_of self.now in
            let a = memory clocks.now flags.now values.now posts.now in
            MatchResult result (λ _. Ready b.units b.messages a unit)
            (λ e. (c : Call) → c.unit ≡ unit → IsRefused b a c e) }
    {
        if !self.has_room(clocks, flags, values, posts) {
            return Err(Refusal::MemoryTooShort);
        }
        if unit >= self.units {
            return Err(Refusal::NoSuchUnit);
        }
        Ok(())
    }

    // The questions of a send or a receipt. Answers what it makes of the message. It only reads.
    fn ask_message(
        &self,
        clocks: &Grid<'_, Clock>,
        flags: &Grid<'_, bool>,
        values: &Grid<'_, P::Value>,
        posts: &[Post],
        unit: usize,
        message: usize,
        handling: Handling,
    ) -> Result<Post, Refusal>
        ensures { let b = setup_of self.now in
            let a = memory clocks.now flags.now values.now posts.now in
            MatchResult result
            (λ post. Ready b.units b.messages a unit × (message < b.messages)
            × (post_after (slice_index_or posts.now message unsent) handling ≡ Ok post))
            (λ e. IsRefused b a (call unit (handling_event handling message)) e) }
    {
        self.ask_unit(clocks, flags, values, posts, unit)?;
        if message >= self.messages {
            return Err(Refusal::NoSuchMessage);
        }
        at_or(posts, message, Post::UNSENT).after(handling)
    }

    /// The questions of a mark, in their order: is the memory long enough (3), is the unit there (4), may it use the label (6), and is its own
    /// clock below the limit (10)? Answers the unit's own clock. It only reads.
    pub fn ask_mark(
        &self,
        clocks: &Grid<'_, Clock>,
        flags: &Grid<'_, bool>,
        values: &Grid<'_, P::Value>,
        posts: &[Post],
        unit: usize,
        label: u8,
    ) -> Result<Clock, Refusal>
        ensures { let b = setup_of self.now in
            let a = memory clocks.now flags.now values.now posts.now in
            MatchResult result (λ own. MayMark b a unit label × (own ≡ own_clock_in b.units a unit))
            (λ e. IsRefused b a (call unit (Mark label)) e) }
    {
        self.ask_unit(clocks, flags, values, posts, unit)?;
        if !self.payload.fits(unit, label) {
            return Err(Refusal::NoSuchLabel);
        }
        let own = clocks.cells[unit * self.units + unit];
        if own == Clock::MAX {
            return Err(Refusal::ClockFull);
        }
        Ok(own)
    }

    // A unit's own clock.
    fn own_clock(&self, clocks: &Grid<'_, Clock>, unit: usize) -> Clock
        requires unit { unit < self.now.units }
        ensures { result ≡ slice_index clocks.now.cells.now (unit * self.now.units + unit) }
    {
        at_or(clocks.cells, unit * self.units + unit, 0)
    }

    /// Puts a message on its way: it takes along what its sender knows. Answers the sender's own clock. Refuses, in this order, memory that is
    /// too short (3), a unit (4) or a message (5) that is not there, and a message sent before (7); a refusal changes nothing.
    pub fn send(
        &self,
        clocks: &mut Grid<'_, Clock>,
        flags: &mut Grid<'_, bool>,
        values: &mut Grid<'_, P::Value>,
        posts: &mut [Post],
        unit: usize,
        message: usize,
    ) -> Result<Clock, Refusal>
        ensures { Obeys (setup_of self.now) (call unit (Send message))
            (memory clocks.old flags.old values.old posts.old)
            (memory clocks.new flags.new values.new posts.new) (result_as Sent result) }
    {
        let sent = self.ask_message(
            clocks,
            flags,
            values,
            posts,
            unit,
            message,
            Handling::Sending,
        )?;
        let row = self.units + message;
        clocks.copy_row(unit, row);
        flags.copy_row(unit, row);
        values.copy_row(unit, row);
        posts[message] = sent;
        Ok(self.own_clock(clocks, unit))
    }

    /// Receives a message: its receiver learns what the message knows. Answers the receiver's own clock. Refuses, in this order, memory that is
    /// too short (3), a unit (4) or a message (5) that is not there, and a message never sent (8) or received before (9); a refusal changes
    /// nothing.
    pub fn receive(
        &self,
        clocks: &mut Grid<'_, Clock>,
        flags: &mut Grid<'_, bool>,
        values: &mut Grid<'_, P::Value>,
        posts: &mut [Post],
        unit: usize,
        message: usize,
    ) -> Result<Clock, Refusal>
        ensures { Obeys (setup_of self.now) (call unit (Receive message))
            (memory clocks.old flags.old values.old posts.old)
            (memory clocks.new flags.new values.new posts.new) (result_as Received result) }
    {
        let received = self.ask_message(
            clocks,
            flags,
            values,
            posts,
            unit,
            message,
            Handling::Receiving,
        )?;
        let rows = RowPair {
            width: self.units,
            from: self.units + message,
            to: unit,
        };
        merge_rows(
            self.payload.start(),
            clocks.cells,
            flags.cells,
            values.cells,
            rows,
        );
        posts[message] = received;
        Ok(self.own_clock(clocks, unit))
    }

    /// A unit makes a mark with a label. Answers its own clock, the units that have an immediate predecessor of the mark, and its value.
    /// Refuses as `ask_mark` does; a refusal changes nothing.
    pub fn mark(
        &self,
        clocks: &mut Grid<'_, Clock>,
        flags: &mut Grid<'_, bool>,
        values: &mut Grid<'_, P::Value>,
        posts: &[Post],
        unit: usize,
        label: u8,
    ) -> Result<Marked<P::Value>, Refusal>
        ensures { Obeys (setup_of self.now) (call unit (Mark label))
            (memory clocks.old flags.old values.old posts.now)
            (memory clocks.new flags.new values.new posts.now) (result_as marked result) }
    {
        let own = self.ask_mark(clocks, flags, values, posts, unit, label)?;
        let clock = own + 1;
        Ok(self.put_mark(clocks, flags, values, unit, label, clock))
    }

    // What a mark does that has asked its questions: it writes its unit's row, by its own clock.
    fn put_mark(
        &self,
        clocks: &mut Grid<'_, Clock>,
        flags: &mut Grid<'_, bool>,
        values: &mut Grid<'_, P::Value>,
        unit: usize,
        label: u8,
        clock: Clock,
    ) -> Marked<P::Value>
        requires clocks { Room self.now.units self.now.messages clocks.old }
        requires flags { Room self.now.units self.now.messages flags.old }
        requires values { Room self.now.units self.now.messages values.old }
        requires unit { unit < self.now.units }
        ensures clock { result.clock ≡ clock }
        ensures writes { WritesMark (setup_of self.now) unit label
            clocks.old clocks.new flags.old flags.new values.old values.new result }
    {
        let start = unit * self.units;
        let end = start + self.units;
        let predecessors = take_positions(&mut flags.cells[start..end]);
        let row = &mut values.cells[start..end];
        let value = self.put_value(row, predecessors, unit, label);
        clocks.cells[start + unit] = clock;
        flags.cells[start + unit] = true;
        Marked {
            clock,
            predecessors,
            value,
        }
    }

    // The value of a mark, by the set of the units that have an immediate predecessor of it and the values of its unit's row. The row is reset, with
    // that value in the unit's own cell.
    fn put_value(&self, row: &mut [P::Value], predecessors: u64, unit: usize, label: u8) -> P::Value
        ensures value { let rules = (setup_of self.now).rules in
            (n : ℕ) (r : ℕ → Cell P.Value) → Reads rules.start n r predecessors row.old
            → result ≡ rules.make n r unit label }
        ensures row { let start = (setup_of self.now).rules.start in
            row.new ≡ slice_set (replicate (length row.old) start) unit result }
    {
        let value = self.payload.worth(predecessors, row, unit, label);
        fill(row, self.payload.start());
        put(row, unit, value);
        value
    }

    /// What became of a message: never sent, on its way, or received. Refuses memory that is too short (3) and a message that is not there (5).
    pub fn state(
        &self,
        clocks: &Grid<'_, Clock>,
        flags: &Grid<'_, bool>,
        values: &Grid<'_, P::Value>,
        posts: &[Post],
        message: usize,
    ) -> Result<Post, Refusal>
        ensures { let b = setup_of self.now in
            let a = memory clocks.now flags.now values.now posts.now in
            let room = has_room b.units b.messages a in
            result ≡ state_answer b.messages room posts.now message }
    {
        if !self.has_room(clocks, flags, values, posts) {
            return Err(Refusal::MemoryTooShort);
        }
        if message < self.messages {
            Ok(at_or(posts, message, Post::UNSENT))
        } else {
            Err(Refusal::NoSuchMessage)
        }
    }

    /// How many messages are on their way. Refuses memory that is too short (3).
    #[tactic(auto, using(crate::proofs::LeftFacts::count_left_is))]
    pub fn left(
        &self,
        clocks: &Grid<'_, Clock>,
        flags: &Grid<'_, bool>,
        values: &Grid<'_, P::Value>,
        posts: &[Post],
    ) -> Result<usize, Refusal>
        ensures { let b = setup_of self.now in
            let a = memory clocks.now flags.now values.now posts.now in
            let room = has_room b.units b.messages a in
            result ≡ left_answer b.messages room posts.now }
    {
        if !self.has_room(clocks, flags, values, posts) {
            return Err(Refusal::MemoryTooShort);
        }
        Ok(count_left(&posts[..self.messages]))
    }
}

// The first messages become as they are before anything is sent.
fn begin_posts(posts: &mut [Post], messages: usize)
    requires { messages ≤ length posts.old }
    ensures { posts.new ≡ replicate messages unsent ++ drop messages posts.old }
{
    fill(&mut posts[0..messages], Post::UNSENT);
}

// How many messages are on their way.
fn count_left(posts: &[Post]) -> usize
    ensures { result ≡ count_by is_on_its_way posts.now }
{
    posts.iter().filter(|post| post.is_on_its_way()).count()
}
