// Every timed call, by what happens: a request, an outcome of a service, service 2 dropped, or
// nothing but the clock. `happen` is the call, on any buffer; `happen_in` is the same on a buffer
// that is known to be good.
#![tactic(auto)]

ghost use Rattle.std.specs.Prelude.{◌≡◌, true, is_err};
ghost use Rattle.rules.specs.Calls.{timed};
ghost use Rattle.rules.specs.Rules.{refused};
ghost use Rattle.refusals.specs.Refusals.{told};
ghost use Rattle.buffer.specs.Good.{good};
ghost use Rattle.clock.specs.Call.{Says};

use buffer::places::Buffer;
use refusals::Refusal;
use rules::{Answer, Event};

// What happens at t, on a good buffer.
pub fn happen_in(s: &mut Buffer, t: u32, e: Event) -> Result<Answer, Refusal>
    requires { good s.old ≡ true }
    ensures says { Says s.old (timed t e) (told result) s.new }
    ensures refused { refused (told result) ≡ is_err result }
{
    match e {
        Event::Ask(q) => request::request_in(s, t, q),
        Event::Outcome(service, o) => outcome::outcome_in(s, t, service, o),
        Event::Dropped => outcome::dropped_in(s, t),
        Event::Tick => ticking::tick_in(s, t),
    }
}

// What happens at t.
pub fn happen(s: &mut [u32], t: u32, e: Event) -> Answer
    ensures { Says s.old (timed t e) result s.new }
{
    let Some(state) = inspect::good_mut(s) else {
        return Refusal::Buffer.into();
    };
    refusals::told(happen_in(state, t, e))
}
