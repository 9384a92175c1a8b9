// The turning call: a buffer of version 1 is read, and one of version 2 that holds the same is
// written. It needs no time.
#![tactic(auto)]

ghost use Rattle.std.specs.Prelude.{◌≡◌};
ghost use Rattle.turning.specs.Turning.{turned, TurnSays};

use buffer::places as at;
use buffer::places::Buffer;
use refusals::{DONE, Refusal};
use rules::Answer;

// The places of version 1, then the version and the due time.
fn copy(old: &[u32; at::BASE], s: &mut Buffer)
    ensures { s.new ≡ turned old.now }
{
    s[..at::BASE].copy_from_slice(old);
    s[at::VERSION] = at::CURRENT;
    s[at::DUE] = 0;
}

// Turns `old`, of version 1; what is in s does not matter. 1 where `old` is no good buffer of
// version 1, or s is not of 1,331 numbers.
pub fn turn(old: &[u32], s: &mut [u32]) -> Answer
    ensures { TurnSays old.now s.old result s.new }
{
    let Some(places) = old.as_array() else {
        return Refusal::Buffer.into();
    };
    if !inspect::is_good_as(old, at::BASE, 1) {
        return Refusal::Buffer.into();
    }
    let Some(room) = s.as_mut_array() else {
        return Refusal::Buffer.into();
    };
    copy(places, room);
    DONE
}
