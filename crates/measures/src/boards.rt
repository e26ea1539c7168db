//! Boards whose cells carry the values of a measure, and the calls that a judge answers too.
ghost use Rattle.std.specs.Prelude.{◌≡◌, OnOk};
ghost use Rattle.history.specs.declared.calls.Answer.TheVariants.{Marked as marked};
ghost use Rattle.history.specs.declared.calls.Event.TheVariants.{Mark};
ghost use Rattle.history.specs.Board.{answer_map};
ghost use Rattle.history.specs.Runs.{call};
ghost use Rattle.causality.specs.Boards.{memory, payload_of, setup_of};
ghost use Rattle.causality.specs.Calls.{result_as};
ghost use Rattle.measures.specs.Worths.{measured_rules};
ghost use Rattle.measures.specs.Calls.{ObeysJudged, judged_value};
ghost use Rattle.measures.specs.Boards.{MarksGood};
ghost use Rattle.measures.specs.Laws.{MarksJudged};

use super::Measure;
use super::judges::{Judge, JudgedValue, verdicts};
use super::marking::mark_value;
use causality::{Board, Payload};
use grid::Grid;
use history::{Answer, Call, Clock, Marked, Post, Refusal};

/// What the cells of a board under a measure carry: what the longest flows that end at a unit's last mark are worth.
#[derive(Clone, Copy)]
pub struct Measured<M: Measure> {
    pub measure: M,
}

impl<M: Measure> Payload for Measured<M> {
    type Value = M::Value;

    ghost rules = { λ p. measured_rules (M.meaning p.measure) };

    fn start(&self) -> M::Value {
        self.measure.start()
    }

    fn worth(&self, predecessors: u64, values: &[M::Value], _unit: usize, label: u8) -> M::Value {
        mark_value(&self.measure, predecessors, values, label)
    }

    fn fits(&self, _unit: usize, label: u8) -> bool {
        label < self.measure.labels()
    }
}

// What a mark is answered, with the judge's verdict beside its value.
fn judged_mark<J: Judge>(judge: &J, mark: Marked<J::Value>) -> Marked<JudgedValue<J::Value>>
    ensures answer { let some = J.Judge.some_of judge.now in
        let answers = judged_value some (J.Judge.all_of judge.now) in
        marked result ≡ answer_map answers (marked mark) }
    ensures flows { MarksJudged (J.Measure.meaning judge.now)
        (J.Judge.some_of judge.now) (J.Judge.all_of judge.now) (J.Judge.good judge.now) }
{
    let verdict = verdicts(judge, mark.value);
    Marked {
        clock: mark.clock,
        predecessors: mark.predecessors,
        value: JudgedValue {
            value: mark.value,
            verdict,
        },
    }
}

/// A unit makes a mark with a label, under a judge: what `Board::mark` answers, and beside its value whether some, and whether all, of the longest
/// flows that end there are good (`good`). Refuses as that call does.
pub fn mark_judged<J: Judge>(
    board: &Board<Measured<J>>,
    clocks: &mut Grid<'_, Clock>,
    flags: &mut Grid<'_, bool>,
    values: &mut Grid<'_, J::Value>,
    posts: &[Post],
    unit: usize,
    label: u8,
) -> Result<Marked<JudgedValue<J::Value>>, Refusal>
    ensures obeys { let judge = (payload_of board.now).measure in
        ObeysJudged (J.Judge.some_of judge) (J.Judge.all_of judge)
        (setup_of board.now) (call unit (Mark label))
        (memory clocks.old flags.old values.old posts.now)
        (memory clocks.new flags.new values.new posts.now) (result_as marked result) }
    ensures good { let judge = (payload_of board.now).measure in
        OnOk result (MarksGood (J.Measure.meaning judge)
        (J.Judge.some_of judge) (J.Judge.all_of judge) (J.Judge.good judge)) }
{
    let mark = board.mark(clocks, flags, values, posts, unit, label)?;
    Ok(judged_mark(&board.payload().measure, mark))
}

/// Hands one call to a board under a judge: what `Board::hand` answers, and beside a mark's value the judge's verdict. Refuses as that call does.
pub fn hand_judged<J: Judge>(
    board: &Board<Measured<J>>,
    clocks: &mut Grid<'_, Clock>,
    flags: &mut Grid<'_, bool>,
    values: &mut Grid<'_, J::Value>,
    posts: &mut [Post],
    call: Call,
) -> Result<Answer<JudgedValue<J::Value>>, Refusal>
    ensures { let judge = (payload_of board.now).measure in
        ObeysJudged (J.Judge.some_of judge) (J.Judge.all_of judge) (setup_of board.now) call
        (memory clocks.old flags.old values.old posts.old)
        (memory clocks.new flags.new values.new posts.new) result }
{
    let answer = board.hand(clocks, flags, values, posts, call)?;
    Ok(judged_answer(&board.payload().measure, answer))
}

/// What a call is answered, with the judge's verdict beside the value of a mark.
pub fn judged_answer<J: Judge>(judge: &J, answer: Answer<J::Value>) -> Answer<JudgedValue<J::Value>>
    ensures { let some = J.Judge.some_of judge.now in
        let answers = judged_value some (J.Judge.all_of judge.now) in
        result ≡ answer_map answers answer }
{
    match answer {
        Answer::Sent(clock) => Answer::Sent(clock),
        Answer::Received(clock) => Answer::Received(clock),
        Answer::Marked(mark) => Answer::Marked(judged_mark(judge, mark)),
    }
}
