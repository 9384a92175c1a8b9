// The gate: every call of Dialchisel under one name, on a state of 1,331 numbers that the caller
// lends. Every call accepts every input: a state of any length and contents, any number, any file
// and room. A refusal changes nothing in any of them.
//
// What each call promises is a relation between what it was given, what it answers and what it
// leaves: `OpenSays`, `TurnSays`, `Says`, `CommandSays` and `SaveSays`; of `why`, which changes
// nothing, what it says, `why_of` and `RoomSays`;
// of `parameters` and `rates`, which are asked of the files alone, which part it is, `IsPart`; of
// `error`, which is asked of nothing but its numbers, `error_for`. Each allows one result only.
#![tactic(auto)]

ghost use Rattle.std.specs.Prelude.{◌≡◌};
ghost use Rattle.rules.specs.Calls.{timed};
ghost use Rattle.rules.specs.declared.Event.TheVariants.{Ask as ask, Outcome as outcome, Dropped as dropped, Tick as tick};
ghost use Rattle.rules.specs.declared.Outcome.TheVariants.{Granted as granted, Silent as silent, Rejected as rejected};
ghost use Rattle.card.specs.Card.{IsPart};
ghost use Rattle.causes.specs.Tables.{error_for};
ghost use Rattle.clock.specs.Call.{Says};
ghost use Rattle.reasons.specs.Why.{why_of, RoomSays};
ghost use Rattle.opening.specs.Open.{order, OpenSays};
ghost use Rattle.turning.specs.Turning.{TurnSays};
ghost use Rattle.saving.specs.Save.{SaveSays};
ghost use Rattle.command.specs.Command.{CommandSays};

use reasons::said::Why;
use rules::{Answer, Event, Outcome};

// Opens the state: a new record begins. The card's three files may each be absent, with no bytes:
// the module's own two rule then, and counters begin at 0. 1 for a state that is not 1,331 numbers,
// 2 for a setting or file out of range, 3 for the time.
pub fn open<'a, 'b>(
    state: &mut [u32],
    time: u32,
    imsi: u64,
    intervals: &[u32],
    nfm: u32,
    rpm: u32,
    a1: u32,
    s1: u32,
    params: &'a [u8],
    leaks: &'b [u8],
    counters: &[u8],
    own_params: &'a [u8],
    own_leaks: &'b [u8],
) -> Answer
    ensures { OpenSays state.old (order time imsi intervals.now nfm rpm a1 s1 params.now leaks.now counters.now own_params.now own_leaks.now) result state.new }
{
    opening::open(
        state, time, imsi, intervals, nfm, rpm, a1, s1, params, leaks, counters, own_params,
        own_leaks,
    )
}

// Turns a state of version 1, of 1,330 numbers, into one of this version: the record begins with
// what it holds, and no reset is due. 1 where `old` is no good state of version 1, or `state` is
// not 1,331 numbers.
pub fn turn(old: &[u32], state: &mut [u32]) -> Answer
    ensures { TurnSays old.now state.old result state.new }
{
    turning::turn(old, state)
}

// The six parameter bytes that rule, as a part of the card's file, or of the module's own where the
// card has none; an empty part where either file is bad.
pub fn parameters<'a>(card: &'a [u8], own: &'a [u8]) -> &'a [u8]
    ensures { IsPart 32 6 card.entry own.entry result }
{
    card::parameters(card, own)
}

// The three leak rates that rule, in the same way.
pub fn rates<'a>(card: &'a [u8], own: &'a [u8]) -> &'a [u8]
    ensures { IsPart 6 3 card.entry own.entry result }
{
    card::rates(card, own)
}

// May request `kind` go to the network at `time`? 0 yes; 10, 11 and 13 to 18 no.
pub fn request(state: &mut [u32], time: u32, kind: u32) -> Answer
    ensures { Says state.old (timed time (ask kind)) result state.new }
{
    events::happen(state, time, Event::Ask(kind))
}

// Why would request `kind` not be permitted at `time`? Which rules stand against it, which comes
// first, and which permit of each limit has to leave the hour. The state is only read.
pub fn why(state: &[u32], time: u32, kind: u32) -> Why
    ensures { result ≡ why_of state.now time kind }
{
    reasons::why(state, time, kind)
}

// The same in two numbers, the first rule and a bit for each, or the refusal; the times go to a
// room of exactly eight numbers.
pub fn why_into(state: &[u32], time: u32, kind: u32, times: &mut [u32]) -> Answer
    ensures { RoomSays state.now time kind times.old result times.new }
{
    reasons::why_into(state, time, kind, times)
}

// What was asked of a service was granted.
pub fn granted(state: &mut [u32], time: u32, service: u32) -> Answer
    ensures { Says state.old (timed time (outcome service granted)) result state.new }
{
    events::happen(state, time, Event::Outcome(service, Outcome::Granted))
}

// What was asked of a service was rejected with a cause of a column; `second` says whether a second
// network exists. 20 to 28 say what to do.
pub fn rejected(
    state: &mut [u32],
    time: u32,
    service: u32,
    cause: u32,
    second: u32,
    column: u32,
) -> Answer
    ensures { Says state.old (timed time (outcome service (rejected cause second column))) result state.new }
{
    events::happen(
        state,
        time,
        Event::Outcome(service, Outcome::Rejected(cause, second, column)),
    )
}

// The CME or CMS number of a cause of a column, for the AT side: 0 with the number, or with 0 where
// none is printed. No state is asked.
pub fn error(column: u32, cause: u32) -> Answer
    ensures { result ≡ error_for column cause }
{
    causes::error(column, cause)
}

// What was asked of a service had no answer.
pub fn silent(state: &mut [u32], time: u32, service: u32) -> Answer
    ensures { Says state.old (timed time (outcome service silent)) result state.new }
{
    events::happen(state, time, Event::Outcome(service, Outcome::Silent))
}

// Service 2, which was up, was dropped.
pub fn dropped(state: &mut [u32], time: u32) -> Answer
    ensures { Says state.old (timed time dropped) result state.new }
{
    events::happen(state, time, Event::Dropped)
}

// The clock call: time passes, and the timed reset that is due is ordered: 12, and else 0.
pub fn tick(state: &mut [u32], time: u32) -> Answer
    ensures { Says state.old (timed time tick) result state.new }
{
    events::happen(state, time, Event::Tick)
}

// An AT line, its CR included: what it says is done, and its answer is written to the room, of at
// least 16 bytes. The second number is the bytes written.
pub fn command(state: &mut [u32], line: &[u8], out: &mut [u8]) -> Answer
    ensures { CommandSays state.old line.now out.old result state.new out.new }
{
    command::command(state, line, out)
}

// Writes the counter file to exactly 32 bytes of room.
pub fn counters(state: &mut [u32], out: &mut [u8]) -> Answer
    ensures { SaveSays state.old out.old result state.new out.new }
{
    saving::save(state, out)
}
