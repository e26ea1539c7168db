//! What the lines say, each as it is printed.
ghost use Rattle.std.specs.Prelude.{◌≡◌};

use history::{Answer, Call, Event, Refusal};
use measures::JudgedValue;
use std::fmt;
use text::Hex;

/// What a call is answered under the judge, or why it is refused, as it is shown.
#[derive(Clone, Copy)]
pub(crate) struct Reply {
    pub(crate) answer: Result<Answer<JudgedValue<u64>>, Refusal>,
}

impl fmt::Display for Reply {
    ghost use Rattle.std.specs.Prelude.{Some};
    ghost use Rattle.lost_wake_up.specs.Lines.{reply_text};

    ghost output = { λ reply. Some (reply_text reply.answer) };

    // Each of the judge's answers is 1 for yes, 0 for no.
    fn fmt<W: fmt::Write>(&self, f: &mut fmt::Formatter<W>) -> fmt::Result {
        match self.answer {
            Ok(Answer::Sent(clock)) => write!(f, "{clock}"),
            Ok(Answer::Received(clock)) => write!(f, "{clock}"),
            Ok(Answer::Marked(mark)) => {
                let clock = mark.clock;
                let predecessors = mark.predecessors;
                let states = Hex::new(mark.value.value);
                let some = u8::from(mark.value.verdict.some);
                let all = u8::from(mark.value.verdict.all);
                write!(f, "{clock} {predecessors} {states} {some} {all}")
            }
            Err(refusal) => {
                let number = u8::from(refusal);
                write!(f, "refused {number}")
            }
        }
    }
}

/// A call, and the reply to it: its unit, what it does, and the number of its message or label come first.
#[derive(Clone, Copy)]
pub(crate) struct CallLine {
    pub(crate) call: Call,
    pub(crate) reply: Reply,
}

impl fmt::Display for CallLine {
    ghost use Rattle.std.specs.Prelude.{Some};
    ghost use Rattle.lost_wake_up.specs.Lines.{call_text};

    ghost output = { λ line. Some (call_text line.call line.reply.answer) };

    fn fmt<W: fmt::Write>(&self, f: &mut fmt::Formatter<W>) -> fmt::Result {
        let unit = self.call.unit;
        let reply = self.reply;
        match self.call.event {
            Event::Send(message) => write!(f, "{unit} send {message} {reply}"),
            Event::Receive(message) => write!(f, "{unit} receive {message} {reply}"),
            Event::Mark(label) => write!(f, "{unit} mark {label} {reply}"),
        }
    }
}
