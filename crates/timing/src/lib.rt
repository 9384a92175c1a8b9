// What is timed or compared by itself, exported for the programs under bench/ and tests/. Firmware
// has no use for it. The C interface needs the old forms here: a buffer is lent as a slice, and
// what is none elsewhere is answered as 0.
#![tactic(auto)]

ghost use Rattle.std.specs.Prelude.{◌≡◌, true, ◌≤◌, ◌<◌, length, take};
ghost use Rattle.mixing.specs.Mixing.{mixed};
ghost use Rattle.rules.specs.Calls.{timed};
ghost use Rattle.rules.specs.declared.Event.TheVariants.{Ask as ask, Tick as tick};
ghost use Rattle.rules.specs.Tables.{ascending};
ghost use Rattle.buffer.specs.Places.{SIZE};
ghost use Rattle.buffer.specs.Good.{good};
ghost use Rattle.permits.specs.Permits.{full_for};
ghost use Rattle.clock.specs.Call.{Says};

use rules::{Answer, Event};

// A number mixed.
#[unsafe(no_mangle)]
pub extern "C" fn timing_mix(x: u64) -> u64
    ensures { result ≡ mixed x }
{
    mixing::mix(x)
}

// Whether a buffer is good.
#[unsafe(no_mangle)]
pub extern "C" fn timing_is_good(s: &[u32]) -> bool
    ensures { result ≡ good s.now }
{
    inspect::is_good(s)
}

// For how long a list is full; 0 where it is not.
#[unsafe(no_mangle)]
pub extern "C" fn timing_full_for(p: &[u32], n: u32, t: u32, most: u32) -> u32
    requires n_in_bounds { n ≤ length p.now }
    requires p_value { ascending 0 t (take n p.now) ≡ true }
    requires most_nonzero { 0 < most }
    ensures { result ≡ full_for t most (take n p.now) }
{
    permits::full_for(p, n, t, most).unwrap_or(0)
}

// The clock call.
#[unsafe(no_mangle)]
pub extern "C" fn timing_tick(s: &mut [u32], t: u32) -> Answer
    ensures { Says s.old (timed t tick) result s.new }
{
    events::happen(s, t, Event::Tick)
}

// The clock call on a good buffer.
#[unsafe(no_mangle)]
pub extern "C" fn timing_tick_in(s: &mut [u32], t: u32) -> Answer
    requires s_len { length s.old ≡ SIZE }
    requires s_value { good s.old ≡ true }
    ensures { Says s.old (timed t tick) result s.new }
{
    refusals::told(ticking::tick_in(s.as_mut_array().unwrap(), t))
}

// A request.
#[unsafe(no_mangle)]
pub extern "C" fn timing_request(s: &mut [u32], t: u32, q: u32) -> Answer
    ensures { Says s.old (timed t (ask q)) result s.new }
{
    events::happen(s, t, Event::Ask(q))
}

// A request on a good buffer.
#[unsafe(no_mangle)]
pub extern "C" fn timing_request_in(s: &mut [u32], t: u32, q: u32) -> Answer
    requires s_len { length s.old ≡ SIZE }
    requires s_value { good s.old ≡ true }
    ensures { Says s.old (timed t (ask q)) result s.new }
{
    refusals::told(request::request_in(s.as_mut_array().unwrap(), t, q))
}
