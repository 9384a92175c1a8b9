// AT lines with a journal: read and answered by the line alone, then appended with the answer, then
// obeyed. The area of the journal is lent after the state.
#![tactic(auto)]

ghost use Rattle.std.specs.Prelude.{◌≡◌, true, ◌≤◌, length, is_err};
ghost use Rattle.rules.specs.Rules.{refused};
ghost use Rattle.refusals.specs.Refusals.{told};
ghost use Rattle.buffer.specs.Good.{good};
ghost use Rattle.at.specs.Lines.{read_line};
ghost use Rattle.journal.specs.Area.{Appends};
ghost use Rattle.records.specs.Records.{types, encoded, longest_line};
ghost use Rattle.keeping.specs.Keeping.{JournalsLine};
ghost use Rattle.noting.specs.Noting.{line_answer};

use at::Order;
use buffer::places::Buffer;
use journal::{AREA, Full};
use refusals::Refusal;
use rules::Answer;

// The answer to an AT line on a good state.
fn verdict(line: &[u8]) -> Result<Answer, Refusal>
    ensures value { told result ≡ line_answer (read_line line.now) }
    ensures refused { refused (told result) ≡ is_err result }
{
    let bytes = match at::read(line).ok_or(Refusal::Line)? {
        Order::Query => 15,
        Order::Nfm(_) | Order::NfmStart(_, _) | Order::Intervals(_) => 4,
    };
    Ok(Answer {
        number: 0,
        second: bytes,
    })
}

// Appends an AT line, with its answer.
fn keep(area: &mut [u8; AREA], line: &[u8], a: Answer) -> Result<(), Full>
    requires { length line.now ≤ longest_line }
    ensures { Appends area.old (encoded (types line.now) a) result area.new }
{
    journal::append(area, &records::spell_line(line, a))
}

// An AT line on a good state, with room for the answer.
fn command_in(
    state: &mut Buffer,
    area: &mut [u8; AREA],
    line: &[u8],
    out: &mut [u8],
) -> Result<Answer, Refusal>
    requires state_value { good state.old ≡ true }
    requires in_bounds { 16 ≤ length out.old }
    ensures { JournalsLine state.old area.old line.now out.old (told result) state.new area.new out.new }
{
    let a = verdict(line)?;
    keep(area, line, a).map_err(|_| Refusal::Full)?;
    command::command_in(state, line, out)
}

// An AT line, its CR included: what it says is done, and its answer is written to the room, of at
// least 16 bytes.
pub fn command(state: &mut [u32], area: &mut [u8], line: &[u8], out: &mut [u8]) -> Answer
    ensures { JournalsLine state.old area.old line.now out.old result state.new area.new out.new }
{
    if out.len() < 16 {
        return Refusal::Buffer.into();
    }
    let Some(area) = area.as_mut_array() else {
        return Refusal::Buffer.into();
    };
    let Some(state) = inspect::good_mut(state) else {
        return Refusal::Buffer.into();
    };
    refusals::told(command_in(state, area, line, out))
}
