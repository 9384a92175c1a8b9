// The clock call, on a buffer that is known to be good: the clock moves and the counters leak, and
// the timed reset that is due is ordered.
#![tactic(auto)]

ghost use Rattle.std.specs.Prelude.{◌≡◌, true, ◌≤◌};
ghost use Rattle.std.specs.Result.{is_err};
ghost use Rattle.rules.specs.Calls.{timed};
ghost use Rattle.rules.specs.declared.Event.TheVariants.{Tick as tick};
ghost use Rattle.rules.specs.Rules.{orders, refused};
ghost use Rattle.refusals.specs.Refusals.{told};
ghost use Rattle.buffer.specs.Layout.{facts_of, view};
ghost use Rattle.buffer.specs.Good.{good};
ghost use Rattle.clock.specs.Call.{Says};
ghost use Rattle.ticking.specs.Ticking.{ordered};

use buffer::places as at;
use buffer::places::Buffer;
use refusals::{DONE, Refusal};
use rules::Answer;

// Whether a reset is ordered at t. Row 0 of the limits on request 5 is N1's, and applies while RPM
// is 1.
pub fn orders(s: &Buffer, t: u32) -> bool
    requires s_value { good s.now ≡ true }
    requires s_bound { (facts_of s.now).last ≤ t }
    ensures { result ≡ orders (view s.now) t }
{
    let due = s[at::DUE];
    if due == 0 || t < due {
        return false;
    }
    let row = deciding::limit(s, 5, 0);
    if !row.applies {
        return false;
    }
    deciding::blocked_for(s, row, t).is_none()
}

// A reset is ordered at t: it is as request 5, and C-R-1 counts it.
fn order(s: &mut Buffer, t: u32)
    requires { good s.old ≡ true }
    ensures { s.new ≡ ordered s.old t }
{
    clock::advance(s, t);
    request::send(s, t, 5);
    request::tally(s, 12);
}

// The clock call.
pub fn tick_in(s: &mut Buffer, t: u32) -> Result<Answer, Refusal>
    requires { good s.old ≡ true }
    ensures says { Says s.old (timed t tick) (told result) s.new }
    ensures refused { refused (told result) ≡ is_err result }
{
    if !clock::timely(s, t) {
        return Err(Refusal::Time);
    }
    if orders(s, t) {
        order(s, t);
        return Ok(Answer {
            number: 12,
            second: 0,
        });
    }
    clock::advance(s, t);
    Ok(DONE)
}
