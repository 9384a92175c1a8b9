// The call for AT lines: what a line says is done, and its answer is written to the room that the
// caller lends. It does not move the clock.
#![tactic(auto)]

ghost use Rattle.std.specs.Prelude.{◌≡◌, true, ◌+◌, ◌≤◌, length, is_err};
ghost use Rattle.rules.specs.Calls.{typed, query, answer};
ghost use Rattle.rules.specs.Rules.{refused};
ghost use Rattle.refusals.specs.Refusals.{told as two};
ghost use Rattle.buffer.specs.Segments.{paste};
ghost use Rattle.buffer.specs.Layout.{facts_of};
ghost use Rattle.buffer.specs.Good.{good};
ghost use Rattle.clock.specs.Call.{Says};
ghost use Rattle.at.specs.Lines.{read_line};
ghost use Rattle.command.specs.Command.{okay as ok_bytes, shown, reply, CommandSays};

use at::Order;
use buffer::places;
use buffer::places::Buffer;
use refusals::Refusal;
use rules::Answer;

// OK CR LF, from a place on.
fn okay(out: &mut [u8], i: usize)
    requires { i + 4 ≤ length out.old }
    ensures { out.new ≡ paste out.old i ok_bytes }
{
    out[i..i + 4].copy_from_slice(b"OK\r\n");
}

// +NFM: a,s CR LF.
fn told(out: &mut [u8], a: u8, s: u8)
    requires in_bounds { 11 ≤ length out.old }
    requires a_bound { (a ≤ 1) × (s ≤ 1) }
    ensures { out.new ≡ paste out.old 0 (shown a s) }
{
    let bytes = [
        b'+',
        b'N',
        b'F',
        b'M',
        b':',
        b' ',
        b'0' + a,
        b',',
        b'0' + s,
        b'\r',
        b'\n',
    ];
    out[..11].copy_from_slice(&bytes);
}

// The read: NFM and Start Timer, then OK.
fn show(s: &Buffer, out: &mut [u8])
    requires s_value { good s.now ≡ true }
    requires in_bounds { 16 ≤ length out.old }
    ensures { out.new ≡ paste out.old 0 (reply (facts_of s.now) query) }
{
    told(out, s[places::NFM] as u8, s[places::START] as u8);
    okay(out, 11);
}

// The answer to a line that was done, with the bytes that were written.
fn wrote(bytes: u32) -> Answer
    ensures { result ≡ answer 0 bytes }
{
    Answer {
        number: 0,
        second: bytes,
    }
}

// An AT line on a good buffer.
pub fn command_in(s: &mut Buffer, line: &[u8], out: &mut [u8]) -> Result<Answer, Refusal>
    requires s_value { good s.old ≡ true }
    requires in_bounds { 16 ≤ length out.old }
    ensures says { Says s.old (typed (read_line line.now)) (two result) s.new }
    ensures written { out.new ≡ paste out.old 0 (reply (facts_of s.old) (read_line line.now)) }
    ensures refused { refused (two result) ≡ is_err result }
{
    match at::read(line) {
        Some(Order::Query) => {
            show(s, out);
            Ok(wrote(15))
        }
        Some(Order::Nfm(a)) => {
            let start = s[places::START];
            settings::turn(s, a, start);
            okay(out, 0);
            Ok(wrote(4))
        }
        Some(Order::NfmStart(a, start)) => {
            settings::turn(s, a, start);
            okay(out, 0);
            Ok(wrote(4))
        }
        Some(Order::Intervals(intervals)) => {
            settings::schedule(s, &intervals.list[..intervals.count]);
            okay(out, 0);
            Ok(wrote(4))
        }
        None => Err(Refusal::Line),
    }
}

// An AT line.
pub fn command(s: &mut [u32], line: &[u8], out: &mut [u8]) -> Answer
    ensures { CommandSays s.old line.now out.old result s.new out.new }
{
    if out.len() < 16 {
        return Refusal::Buffer.into();
    }
    let Some(state) = inspect::good_mut(s) else {
        return Refusal::Buffer.into();
    };
    refusals::told(command_in(state, line, out))
}
