// The answer to any timed call, on a buffer that is known to be good, by reading alone.
#![tactic(auto)]

ghost use Rattle.std.specs.Prelude.{◌≡◌, true, is_err};
ghost use Rattle.rules.specs.Calls.{timed};
ghost use Rattle.rules.specs.declared.Event.TheVariants.{Outcome as outcome, Dropped as dropped, Tick as tick};
ghost use Rattle.rules.specs.declared.Outcome.TheVariants.{Granted as granted, Silent as silent, Rejected as rejected};
ghost use Rattle.rules.specs.Rules.{ruling, refused};
ghost use Rattle.refusals.specs.Refusals.{told};
ghost use Rattle.buffer.specs.Layout.{view};
ghost use Rattle.buffer.specs.Good.{good};

use buffer::places as at;
use buffer::places::Buffer;
use refusals::{DONE, Refusal};
use rules::{Answer, Event, Outcome};

// The answer to a grant, which has nothing to say unless a check fails.
fn of_granted(s: &Buffer, t: u32, number: u32) -> Result<Answer, Refusal>
    requires { good s.now ≡ true }
    ensures value { told result ≡ ruling (view s.now) (timed t (outcome number granted)) }
    ensures refused { refused (told result) ≡ is_err result }
{
    outcome::checks(s, t, number <= 3, number).and(Ok(DONE))
}

// The answer to silence: as to a failure whose action is 20, unless a check fails.
fn of_silent(s: &Buffer, t: u32, number: u32) -> Result<Answer, Refusal>
    requires { good s.now ≡ true }
    ensures value { told result ≡ ruling (view s.now) (timed t (outcome number silent)) }
    ensures refused { refused (told result) ≡ is_err result }
{
    let service = outcome::checks(s, t, number <= 3, number)?;
    Ok(backoff::failing(s, service, 20))
}

// The answer to a rejection: as to a failure with the action of its cause, unless a check fails. A
// cause on which both registrations back off has action 20 too.
fn of_rejected(
    s: &Buffer,
    t: u32,
    number: u32,
    cause: u32,
    second: u32,
    column: u32,
) -> Result<Answer, Refusal>
    requires { good s.now ≡ true }
    ensures value { told result ≡ ruling (view s.now) (timed t (outcome number (rejected cause second column))) }
    ensures refused { refused (told result) ≡ is_err result }
{
    let service = outcome::checks(s, t, outcome::told(number, cause, second, column), number)?;
    Ok(backoff::failing(s, service, causes::action(column, cause, second)))
}

// The answer to an outcome of a service.
fn of_outcome(s: &Buffer, t: u32, service: u32, o: Outcome) -> Result<Answer, Refusal>
    requires { good s.now ≡ true }
    ensures value { told result ≡ ruling (view s.now) (timed t (outcome service o)) }
    ensures refused { refused (told result) ≡ is_err result }
{
    match o {
        Outcome::Granted => of_granted(s, t, service),
        Outcome::Silent => of_silent(s, t, service),
        Outcome::Rejected(cause, second, column) => {
            of_rejected(s, t, service, cause, second, column)
        }
    }
}

// The answer to service 2 dropped, which has nothing to say unless a check fails.
fn of_dropped(s: &Buffer, t: u32) -> Result<Answer, Refusal>
    requires { good s.now ≡ true }
    ensures value { told result ≡ ruling (view s.now) (timed t dropped) }
    ensures refused { refused (told result) ≡ is_err result }
{
    clock::refuse(true, clock::timely(s, t), s[at::STANDING + 2] == 2).and(Ok(DONE))
}

// The answer to the clock call: 12 where a reset is ordered, unless the time is refused.
fn of_tick(s: &Buffer, t: u32) -> Result<Answer, Refusal>
    requires { good s.now ≡ true }
    ensures value { told result ≡ ruling (view s.now) (timed t tick) }
    ensures refused { refused (told result) ≡ is_err result }
{
    if !clock::timely(s, t) {
        return Err(Refusal::Time);
    }
    if ticking::orders(s, t) {
        return Ok(Answer {
            number: 12,
            second: 0,
        });
    }
    Ok(DONE)
}

// The answer to what happens at t.
pub fn verdict(s: &Buffer, t: u32, e: Event) -> Result<Answer, Refusal>
    requires { good s.now ≡ true }
    ensures value { told result ≡ ruling (view s.now) (timed t e) }
    ensures refused { refused (told result) ≡ is_err result }
{
    match e {
        Event::Ask(q) => deciding::decide(s, t, q),
        Event::Outcome(service, o) => of_outcome(s, t, service, o),
        Event::Dropped => of_dropped(s, t),
        Event::Tick => of_tick(s, t),
    }
}
