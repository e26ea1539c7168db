//! The commands of a recording.
ghost use Rattle.std.specs.Prelude.{◌≡◌, Ok, Err, MatchResult};
ghost use Rattle.reports.specs.Commands.{first_command as first_in};
ghost use Rattle.reports.specs.declared.commands.Command.TheVariants.{Call as call_command};

use super::faults::Reason;
use history::{Call, Event};

// The first byte of each command. A slice pattern below names them.
const MAKE: u8 = 0x10;

const SEND: u8 = 0x01;

const RECEIVE: u8 = 0x02;

const MARK: u8 = 0x03;

const END: u8 = 0x00;

// The bytes of a command that makes a board: its first byte, and two operands.
pub(crate) const MAKING_SIZE: usize = 3;

// A command: to make a board of so many units and messages, to hand it a call, or to end.
#[derive(Clone, Copy, PartialEq, Eq, Debug)]
pub(crate) enum Command {
    Make(u8, u8),
    Call(Call),
    End,
}

// The command that hands a unit's event to the board.
fn call(unit: u8, event: Event) -> Command
    ensures { result ≡ call_command (record { unit = unit; event = event }) }
{
    Command::Call(Call {
        unit: unit as usize,
        event,
    })
}

// The first command of some bytes, and the bytes after it; or why there is none.
#[inline(always)]
pub(crate) fn first_command(bytes: &[u8]) -> Result<(Command, &[u8]), Reason>
    ensures { MatchResult result
        (λ r. first_in bytes.now ≡ Ok (r.0, r.1.now))
        (λ e. first_in bytes.now ≡ Err e) }
{
    match bytes {
        [] => Err(Reason::NoByte),
        [MAKE, units, messages, rest @ ..] => Ok((Command::Make(*units, *messages), rest)),
        [SEND, unit, message, rest @ ..] => {
            Ok((call(*unit, Event::Send(*message as usize)), rest))
        }
        [RECEIVE, unit, message, rest @ ..] => {
            Ok((call(*unit, Event::Receive(*message as usize)), rest))
        }
        [MARK, unit, label, rest @ ..] => Ok((call(*unit, Event::Mark(*label)), rest)),
        [END, rest @ ..] => Ok((Command::End, rest)),
        [MAKE | SEND | RECEIVE | MARK, ..] => Err(Reason::NoOperands),
        [_, ..] => Err(Reason::NoCommand),
    }
}
