// The counter file: the card's six counters, written to exactly 32 bytes. It does not move the
// clock, and leaves the state as it is.
#![tactic(auto)]

ghost use Rattle.std.specs.Prelude.{◌≡◌, true, ◌<◌, length, get_or};
ghost use Rattle.buffer.specs.Layout.{facts_of};
ghost use Rattle.buffer.specs.Good.{good};
ghost use Rattle.card.specs.Card.{written};
ghost use Rattle.saving.specs.Save.{SaveSays};

use buffer::places as at;
use buffer::places::Buffer;
use refusals::Refusal;
use rules::Answer;

// Counter i, as a byte.
fn counter(s: &Buffer, i: usize) -> u8
    requires s_value { good s.now ≡ true }
    requires i_bound { i < 6 }
    ensures { result ≡ get_or (facts_of s.now).counters i 0 }
{
    s[at::COUNTERS + i] as u8
}

// The counter file, of a good state.
fn save_in(s: &Buffer, out: &mut [u8; 32])
    requires { good s.now ≡ true }
    ensures { out.new ≡ written (facts_of s.now).counters }
{
    card::write(
        out,
        [
            counter(s, 0),
            counter(s, 1),
            counter(s, 2),
            counter(s, 3),
            counter(s, 4),
            counter(s, 5),
        ],
    );
}

// Writes the counters.
pub fn save(s: &mut [u32], out: &mut [u8]) -> Answer
    ensures { SaveSays s.old out.old result s.new out.new }
{
    let Some(room) = out.as_mut_array() else {
        return Refusal::Buffer.into();
    };
    let Some(state) = inspect::good(s) else {
        return Refusal::Buffer.into();
    };
    save_in(state, room);
    Answer {
        number: 0,
        second: 32,
    }
}
