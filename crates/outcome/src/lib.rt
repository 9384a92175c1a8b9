// What became of a request, on a buffer that is known to be good: granted, rejected with a cause,
// or silent, when no answer came; and service 2 dropped.
#![tactic(auto)]

ghost use Rattle.std.specs.Prelude.{◌≡◌, true, false, cond, ◌≤◌, eqb, is_err, is_some, IfSome, IfOk};
ghost use Rattle.rules.specs.Calls.{timed};
ghost use Rattle.rules.specs.declared.Event.TheVariants.{Outcome as outcome, Dropped as dropped};
ghost use Rattle.rules.specs.declared.Outcome.TheVariants.{Granted as granted, Silent as silent, Rejected as rejected};
ghost use Rattle.rules.specs.Causes.{action, both};
ghost use Rattle.rules.specs.Tables.{highest_time, mood_on};
ghost use Rattle.rules.specs.Rules.{in_range, standing, failed, refused, on_granted, on_failed};
ghost use Rattle.refusals.specs.Refusals.{check_of, told as answered};
ghost use Rattle.services.specs.Services.{index_of};
ghost use Rattle.buffer.specs.Layout.{facts_of};
ghost use Rattle.buffer.specs.Good.{good};
ghost use Rattle.clock.specs.Call.{Says};
ghost use Rattle.outcome.specs.Outcome.{rested, checked, clocked, served};

use buffer::places as at;
use buffer::places::Buffer;
use refusals::{DONE, Refusal};
use rules::{Answer, Outcome};
use services::Service;

// The service of a number, where it stands at 1, asked.
fn asked(s: &Buffer, number: u32) -> Option<Service>
    ensures stands { is_some result ≡ eqb (standing (facts_of s.now) number) 1 }
    ensures found { IfSome result (λ service. index_of service ≡ number) }
{
    let Ok(service) = Service::try_from(number) else {
        return None;
    };
    (s[at::STANDING + service.index()] == 1).then_some(service)
}

// The service of an outcome that no check refuses, or the first check that it fails; range says
// whether the call's numbers are in range.
pub fn checks(s: &Buffer, t: u32, range: bool, number: u32) -> Result<Service, Refusal>
    ensures check { check_of result ≡ checked (facts_of s.now) t range number }
    ensures found { IfOk result (λ service. index_of service ≡ number) }
{
    let found = asked(s, number);
    clock::refuse(range, clock::timely(s, t), found.is_some())?;
    found.ok_or(Refusal::Standing)
}

// Whether the numbers of a rejection are in range, and the column is one of the service's.
#[tactic(auto, unfolding(rules::specs::Rules::in_range))]
pub fn told(service: u32, cause: u32, second: u32, column: u32) -> bool
    ensures { result ≡ in_range (outcome service (rejected cause second column)) }
{
    let own = (column == service) | ((column == 4) & (service == 3));
    (service <= 3) & ((cause <= 255) & ((second <= 1) & own))
}

// A service stands at x, and service 2 gets mood m.
fn rest(s: &mut Buffer, service: Service, x: u32, m: u32)
    ensures { s.new ≡ rested s.old (index_of service) x m }
{
    s[at::STANDING + service.index()] = x;
    if service == Service::Pdp {
        s[at::MOOD] = m;
    }
}

// Where a granted service stands: service 2 is up, any other is idle.
fn up(service: Service) -> u32
    ensures { result ≡ cond (eqb (index_of service) 2) 2 0 }
{
    if service == Service::Pdp { 2 } else { 0 }
}

// A service is granted at t: its back-off is over.
fn grant(s: &mut Buffer, t: u32, service: Service)
    requires { good s.old ≡ true }
    ensures { s.new ≡ served s.old t (on_granted (index_of service) (facts_of s.old).services) }
{
    clock::advance(s, t);
    backoff::store(s, service, backoff::load(s, service).granted());
    rest(s, service, up(service), 0);
}

// Time goes to t, and a service, which failed, is idle; m is service 2's mood.
fn over(s: &mut Buffer, t: u32, service: Service, m: u32)
    requires { good s.old ≡ true }
    ensures { s.new ≡ rested (clocked s.old t) (index_of service) 0 m }
{
    clock::advance(s, t);
    rest(s, service, 0, m);
}

// A service fails at t: n is the action, of itself alone, m service 2's mood.
fn fail(s: &mut Buffer, t: u32, service: Service, n: u32, m: u32) -> Answer
    requires s_value { good s.old ≡ true }
    requires t_le_highest_time { t ≤ highest_time }
    ensures value { result ≡ failed (facts_of s.old) (index_of service) n }
    ensures s_after { s.new ≡ served s.old t (on_failed t (index_of service) (eqb result.number 20) false m (facts_of s.old)) }
{
    let a = backoff::failing(s, service, n);
    over(s, t, service, m);
    backoff::back(s, t, service, a.number, a.second);
    a
}

// A service fails at t, and both registrations back off, each by its own wait.
fn fail_both(s: &mut Buffer, t: u32, service: Service, m: u32) -> Answer
    requires s_value { good s.old ≡ true }
    requires t_le_highest_time { t ≤ highest_time }
    ensures value { result ≡ failed (facts_of s.old) (index_of service) 20 }
    ensures s_after { s.new ≡ served s.old t (on_failed t (index_of service) (eqb result.number 20) true m (facts_of s.old)) }
{
    let a = backoff::failing(s, service, 20);
    let first = backoff::wait(s, Service::Gsm);
    let other = backoff::wait(s, Service::Gprs);
    over(s, t, service, m);
    backoff::back(s, t, Service::Gsm, a.number, first);
    backoff::back(s, t, Service::Gprs, a.number, other);
    a
}

// A service is rejected at t with a cause of a column.
fn reject(s: &mut Buffer, t: u32, service: Service, cause: u32, second: u32, column: u32) -> Answer
    requires s_value { good s.old ≡ true }
    requires t_le_highest_time { t ≤ highest_time }
    ensures value { result ≡ failed (facts_of s.old) (index_of service) (action column cause second) }
    ensures s_after { s.new ≡ served s.old t (on_failed t (index_of service) (eqb result.number 20) (both column cause) (mood_on cause) (facts_of s.old)) }
{
    let m = causes::mood(cause);
    if causes::both(column, cause) {
        return fail_both(s, t, service, m);
    }
    fail(s, t, service, causes::action(column, cause, second), m)
}

// A grant, on a good buffer.
fn granted_in(s: &mut Buffer, t: u32, number: u32) -> Result<Answer, Refusal>
    requires { good s.old ≡ true }
    ensures says { Says s.old (timed t (outcome number granted)) (answered result) s.new }
    ensures refused { refused (answered result) ≡ is_err result }
{
    let service = checks(s, t, number <= 3, number)?;
    grant(s, t, service);
    Ok(DONE)
}

// Silence, on a good buffer.
fn silent_in(s: &mut Buffer, t: u32, number: u32) -> Result<Answer, Refusal>
    requires { good s.old ≡ true }
    ensures says { Says s.old (timed t (outcome number silent)) (answered result) s.new }
    ensures refused { refused (answered result) ≡ is_err result }
{
    let service = checks(s, t, number <= 3, number)?;
    Ok(fail(s, t, service, 20, 1))
}

// A rejection, on a good buffer.
fn rejected_in(
    s: &mut Buffer,
    t: u32,
    number: u32,
    cause: u32,
    second: u32,
    column: u32,
) -> Result<Answer, Refusal>
    requires { good s.old ≡ true }
    ensures says { Says s.old (timed t (outcome number (rejected cause second column))) (answered result) s.new }
    ensures refused { refused (answered result) ≡ is_err result }
{
    let service = checks(s, t, told(number, cause, second, column), number)?;
    let due = timer::due(s, t, column, cause);
    let a = reject(s, t, service, cause, second, column);
    s[at::DUE] = due;
    Ok(a)
}

// Service 2 dropped, on a good buffer.
pub fn dropped_in(s: &mut Buffer, t: u32) -> Result<Answer, Refusal>
    requires { good s.old ≡ true }
    ensures says { Says s.old (timed t dropped) (answered result) s.new }
    ensures refused { refused (answered result) ≡ is_err result }
{
    clock::refuse(true, clock::timely(s, t), s[at::STANDING + 2] == 2)?;
    clock::advance(s, t);
    s[at::STANDING + 2] = 0;
    Ok(DONE)
}

// An outcome of a service, on a good buffer.
pub fn outcome_in(s: &mut Buffer, t: u32, service: u32, o: Outcome) -> Result<Answer, Refusal>
    requires { good s.old ≡ true }
    ensures says { Says s.old (timed t (outcome service o)) (answered result) s.new }
    ensures refused { refused (answered result) ≡ is_err result }
{
    match o {
        Outcome::Granted => granted_in(s, t, service),
        Outcome::Silent => silent_in(s, t, service),
        Outcome::Rejected(cause, second, column) => {
            rejected_in(s, t, service, cause, second, column)
        }
    }
}
