// Why the gate says no. The rules that stand against a request go into one number with a bit for
// each, in document 01's order: bit 0 is 10, the back-off, bit 1 is 11, and then 13 to 18. Nothing
// is changed.
#![tactic(auto)]

pub mod said;

ghost use Rattle.std.specs.Prelude.{◌≡◌, true, cond, ◌<◌, get_or, is_some, unwrap_or};
ghost use Rattle.std.specs.Int.Count.{count_trailing_zeros};
ghost use Rattle.rules.specs.Calls.{timed};
ghost use Rattle.rules.specs.declared.Event.TheVariants.{Ask as ask};
ghost use Rattle.rules.specs.Tables.{rules};
ghost use Rattle.rules.specs.Rules.{blocks, refusal};
ghost use Rattle.refusals.specs.Refusals.{number_of};
ghost use Rattle.buffer.specs.Layout.{view, facts_of};
ghost use Rattle.buffer.specs.Good.{good};
ghost use Rattle.deciding.specs.Limits.{limit_at};
ghost use Rattle.reasons.specs.Why.{weigh, leaving, refused_by, reasons, why_of, RoomSays};

use buffer::places::Buffer;
use refusals::Refusal;
use rules::Answer;
use said::Why;

// The rules by document 01's number, in its order: bit i of the bits is the i-th.
pub const NUMBERS: [u32; 8] = [10, 11, 13, 14, 15, 16, 17, 18];

// A request that is refused: its number, and no rules.
fn refused(why: Refusal) -> Why
    ensures { result ≡ refused_by (number_of why) }
{
    Why {
        refusal: why.number(),
        bits: 0,
        count: 0,
        first: 0,
        times: [0; 8],
    }
}

// One number with a bit for each of eight, the first the lowest.
fn weigh(stands: &[bool; 8]) -> u32
    ensures { result ≡ weigh stands.now }
{
    let mut bits = 0;
    for b in stands.iter().rev() {
        bits = 2 * bits + u32::from(*b);
    }
    bits
}

// The number of the i-th rule, in document 01's order; 0 where there is none, as `Why` has it.
fn number(i: u32) -> u32
    ensures { result ≡ get_or rules i 0 }
{
    NUMBERS.get(i as usize).copied().unwrap_or(0)
}

// The number of the lowest bit's rule; 0 where no bit is set, as `Why` has it.
fn first(bits: u32) -> u32
    ensures { result ≡ get_or rules (count_trailing_zeros 32 bits) 0 }
{
    number(bits.trailing_zeros())
}

// Limit i, 0 to 6, on request q at t, which no check refuses: where it stands against the request,
// the time that has to leave the hour. That is as long ago as the seconds until it does fall short
// of an hour.
fn look(s: &Buffer, t: u32, q: u32, i: usize) -> Option<u32>
    requires s_value { good s.now ≡ true }
    requires q_value { refusal (facts_of s.now) (timed t (ask q)) ≡ 0 }
    requires i_bound { i < 7 }
    ensures stands_value { is_some result ≡ blocks (view s.now) t (limit_at (facts_of s.now) q i) }
    ensures time_value { unwrap_or result 0 ≡ cond (blocks (view s.now) t (limit_at (facts_of s.now) q i)) (leaving (view s.now) (limit_at (facts_of s.now) q i)) 0 }
{
    let m = deciding::blocked_for(s, deciding::limit(s, q, i), t)?;
    Some(t - (3600 - m))
}

// Of a request that no check refuses, on a good buffer.
fn standing(s: &Buffer, t: u32, q: u32) -> Why
    requires s_value { good s.now ≡ true }
    requires q_value { refusal (facts_of s.now) (timed t (ask q)) ≡ 0 }
    ensures { result ≡ reasons (view s.now) t q }
{
    let held = deciding::left(s, t, q).is_some();
    let n1 = look(s, t, q, 0);
    let f1 = look(s, t, q, 1);
    let f2 = look(s, t, q, 2);
    let f3 = look(s, t, q, 3);
    let f4 = look(s, t, q, 4);
    let a1 = look(s, t, q, 5);
    let s1 = look(s, t, q, 6);
    let bits = weigh(&[
        held,
        n1.is_some(),
        f1.is_some(),
        f2.is_some(),
        f3.is_some(),
        f4.is_some(),
        a1.is_some(),
        s1.is_some(),
    ]);
    Why {
        refusal: 0,
        bits,
        count: bits.count_ones(),
        first: first(bits),
        times: [
            0,
            n1.unwrap_or(0),
            f1.unwrap_or(0),
            f2.unwrap_or(0),
            f3.unwrap_or(0),
            f4.unwrap_or(0),
            a1.unwrap_or(0),
            s1.unwrap_or(0),
        ],
    }
}

// On a good buffer.
fn why_in(s: &Buffer, t: u32, q: u32) -> Why
    requires { good s.now ≡ true }
    ensures { result ≡ reasons (view s.now) t q }
{
    match deciding::refusal(s, t, q) {
        Ok(()) => standing(s, t, q),
        Err(why) => refused(why),
    }
}

// Why request `kind` would not be permitted at `time`.
pub fn why(state: &[u32], time: u32, kind: u32) -> Why
    ensures { result ≡ why_of state.now time kind }
{
    match inspect::good(state) {
        Some(s) => why_in(s, time, kind),
        None => refused(Refusal::Buffer),
    }
}

// The same in two numbers: the first rule and the bits, or the refusal. The times go to a room of
// exactly eight numbers.
pub fn why_into(state: &[u32], time: u32, kind: u32, times: &mut [u32]) -> Answer
    ensures { RoomSays state.now time kind times.old result times.new }
{
    if times.len() != 8 {
        return Refusal::Buffer.into();
    }
    let found = why(state, time, kind);
    if found.refusal != 0 {
        return Answer {
            number: found.refusal,
            second: 0,
        };
    }
    times.copy_from_slice(&found.times);
    Answer {
        number: found.first,
        second: found.bits,
    }
}
