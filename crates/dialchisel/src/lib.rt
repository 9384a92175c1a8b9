// The C interface: the twelve calls of the gate and the ten of the journal, exported. Each slice is
// a pointer and a count, and each call gives back two numbers. include/dialchisel.h says what the
// caller owes. Each call promises what the call that it hands on to does.
#![tactic(auto)]

ghost use Rattle.std.specs.Prelude.{◌≡◌};
ghost use Rattle.rules.specs.Calls.{timed};
ghost use Rattle.rules.specs.declared.Event.TheVariants.{Ask as ask, Outcome as outcome, Dropped as dropped, Tick as tick};
ghost use Rattle.rules.specs.declared.Outcome.TheVariants.{Granted as granted, Silent as silent, Rejected as rejected};
ghost use Rattle.causes.specs.Tables.{error_for};
ghost use Rattle.clock.specs.Call.{Says};
ghost use Rattle.reasons.specs.Why.{RoomSays};
ghost use Rattle.opening.specs.Open.{order, OpenSays};
ghost use Rattle.turning.specs.Turning.{TurnSays};
ghost use Rattle.saving.specs.Save.{SaveSays};
ghost use Rattle.command.specs.Command.{CommandSays};
ghost use Rattle.records.specs.Records.{times};
ghost use Rattle.keeping.specs.Keeping.{Journals, JournalsLine, EraseSays, next_of};
ghost use Rattle.restarting.specs.Restarting.{RestartSays};

use rules::Answer;

// Opens the state: a new record begins. The card's three files may each be absent, with no bytes:
// the module's own two rule then, and counters begin at 0. 1 for a state that is not 1,331 numbers,
// 2 for a setting or file out of range, 3 for the time.
#[unsafe(no_mangle)]
pub extern "C" fn dialchisel_open<'a, 'b>(
    state: &mut [u32],
    time: u32,
    imsi: u64,
    intervals: &[u32],
    nfm: u32,
    rpm: u32,
    a1: u32,
    s1: u32,
    params: &'a [u8],
    leaks: &'b [u8],
    counters: &[u8],
    own_params: &'a [u8],
    own_leaks: &'b [u8],
) -> Answer
    ensures { OpenSays state.old (order time imsi intervals.now nfm rpm a1 s1 params.now leaks.now counters.now own_params.now own_leaks.now) result state.new }
{
    gate::open(
        state, time, imsi, intervals, nfm, rpm, a1, s1, params, leaks, counters, own_params,
        own_leaks,
    )
}

// Turns a state of version 1, of 1,330 numbers, into one of this version: the record begins with
// what it holds, and no reset is due. 1 where `old` is no good state of version 1, or `state` is
// not 1,331 numbers.
#[unsafe(no_mangle)]
pub extern "C" fn dialchisel_turn_1(old: &[u32], state: &mut [u32]) -> Answer
    ensures { TurnSays old.now state.old result state.new }
{
    gate::turn(old, state)
}

// May request `kind` go to the network at `time`? 0 yes; 10, 11 and 13 to 18 no.
#[unsafe(no_mangle)]
pub extern "C" fn dialchisel_request(state: &mut [u32], time: u32, kind: u32) -> Answer
    ensures { Says state.old (timed time (ask kind)) result state.new }
{
    gate::request(state, time, kind)
}

// Why would request `kind` not be permitted at `time`? The first rule that stands against it and a
// bit for each, or the refusal; the permit times that have to leave the hour go to a room of
// exactly eight numbers. The state is only read.
#[unsafe(no_mangle)]
pub extern "C" fn dialchisel_why(state: &[u32], time: u32, kind: u32, times: &mut [u32]) -> Answer
    ensures { RoomSays state.now time kind times.old result times.new }
{
    gate::why_into(state, time, kind, times)
}

// What was asked of a service was granted.
#[unsafe(no_mangle)]
pub extern "C" fn dialchisel_granted(state: &mut [u32], time: u32, service: u32) -> Answer
    ensures { Says state.old (timed time (outcome service granted)) result state.new }
{
    gate::granted(state, time, service)
}

// What was asked of a service was rejected with a cause of a column; `second` says whether a second
// network exists. 20 to 28 say what to do.
#[unsafe(no_mangle)]
pub extern "C" fn dialchisel_rejected(
    state: &mut [u32],
    time: u32,
    service: u32,
    cause: u32,
    second: u32,
    column: u32,
) -> Answer
    ensures { Says state.old (timed time (outcome service (rejected cause second column))) result state.new }
{
    gate::rejected(state, time, service, cause, second, column)
}

// The CME or CMS number of a cause of a column, for the AT side: 0 with the number, or with 0 where
// none is printed. No state is asked.
#[unsafe(no_mangle)]
pub extern "C" fn dialchisel_error(column: u32, cause: u32) -> Answer
    ensures { result ≡ error_for column cause }
{
    gate::error(column, cause)
}

// What was asked of a service had no answer.
#[unsafe(no_mangle)]
pub extern "C" fn dialchisel_silent(state: &mut [u32], time: u32, service: u32) -> Answer
    ensures { Says state.old (timed time (outcome service silent)) result state.new }
{
    gate::silent(state, time, service)
}

// Service 2, which was up, was dropped.
#[unsafe(no_mangle)]
pub extern "C" fn dialchisel_dropped(state: &mut [u32], time: u32) -> Answer
    ensures { Says state.old (timed time dropped) result state.new }
{
    gate::dropped(state, time)
}

// The clock call: time passes, and the timed reset that is due is ordered: 12, and else 0.
#[unsafe(no_mangle)]
pub extern "C" fn dialchisel_tick(state: &mut [u32], time: u32) -> Answer
    ensures { Says state.old (timed time tick) result state.new }
{
    gate::tick(state, time)
}

// An AT line, its CR included: what it says is done, and its answer is written to the room, of at
// least 16 bytes. The second number is the bytes written.
#[unsafe(no_mangle)]
pub extern "C" fn dialchisel_command(state: &mut [u32], line: &[u8], out: &mut [u8]) -> Answer
    ensures { CommandSays state.old line.now out.old result state.new out.new }
{
    gate::command(state, line, out)
}

// Writes the counter file to exactly 32 bytes of room.
#[unsafe(no_mangle)]
pub extern "C" fn dialchisel_counters(state: &mut [u32], out: &mut [u8]) -> Answer
    ensures { SaveSays state.old out.old result state.new out.new }
{
    gate::counters(state, out)
}

// ---- The journal

// Erases the area: every byte becomes 255.
#[unsafe(no_mangle)]
pub extern "C" fn dialchisel_erase(area: &mut [u8]) -> Answer
    ensures { EraseSays area.old result area.new }
{
    keeping::erase(area)
}

// The slot that the next append writes; 6 where the journal is full. The area is only read.
#[unsafe(no_mangle)]
pub extern "C" fn dialchisel_journal_next(area: &[u8]) -> Answer
    ensures { result ≡ next_of area.now }
{
    keeping::next(area)
}

// The same as `dialchisel_request`, appended before it is answered.
#[unsafe(no_mangle)]
pub extern "C" fn dialchisel_journal_request(
    state: &mut [u32],
    area: &mut [u8],
    time: u32,
    kind: u32,
) -> Answer
    ensures { Journals state.old area.old (times time (ask kind)) result state.new area.new }
{
    keeping::request(state, area, time, kind)
}

// The same as `dialchisel_granted`, appended before it is answered.
#[unsafe(no_mangle)]
pub extern "C" fn dialchisel_journal_granted(
    state: &mut [u32],
    area: &mut [u8],
    time: u32,
    service: u32,
) -> Answer
    ensures { Journals state.old area.old (times time (outcome service granted)) result state.new area.new }
{
    keeping::granted(state, area, time, service)
}

// The same as `dialchisel_rejected`, appended before it is answered.
#[unsafe(no_mangle)]
pub extern "C" fn dialchisel_journal_rejected(
    state: &mut [u32],
    area: &mut [u8],
    time: u32,
    service: u32,
    cause: u32,
    second: u32,
    column: u32,
) -> Answer
    ensures { Journals state.old area.old (times time (outcome service (rejected cause second column))) result state.new area.new }
{
    keeping::rejected(state, area, time, service, cause, second, column)
}

// The same as `dialchisel_silent`, appended before it is answered.
#[unsafe(no_mangle)]
pub extern "C" fn dialchisel_journal_silent(
    state: &mut [u32],
    area: &mut [u8],
    time: u32,
    service: u32,
) -> Answer
    ensures { Journals state.old area.old (times time (outcome service silent)) result state.new area.new }
{
    keeping::silent(state, area, time, service)
}

// The same as `dialchisel_dropped`, appended before it is answered.
#[unsafe(no_mangle)]
pub extern "C" fn dialchisel_journal_dropped(
    state: &mut [u32],
    area: &mut [u8],
    time: u32,
) -> Answer
    ensures { Journals state.old area.old (times time dropped) result state.new area.new }
{
    keeping::dropped(state, area, time)
}

// The same as `dialchisel_tick`, appended before it is answered.
#[unsafe(no_mangle)]
pub extern "C" fn dialchisel_journal_tick(state: &mut [u32], area: &mut [u8], time: u32) -> Answer
    ensures { Journals state.old area.old (times time tick) result state.new area.new }
{
    keeping::tick(state, area, time)
}

// The same as `dialchisel_command`, appended before it is answered.
#[unsafe(no_mangle)]
pub extern "C" fn dialchisel_journal_command(
    state: &mut [u32],
    area: &mut [u8],
    line: &[u8],
    out: &mut [u8],
) -> Answer
    ensures { JournalsLine state.old area.old line.now out.old result state.new area.new out.new }
{
    noting::command(state, area, line, out)
}

// The state after an image and the journal that was begun with it: 1 for the length of the area or
// the state, 7 where the image or the journal is bad.
#[unsafe(no_mangle)]
pub extern "C" fn dialchisel_restart(image: &[u32], area: &mut [u8], state: &mut [u32]) -> Answer
    ensures { RestartSays image.now area.old state.old result area.new state.new }
{
    restarting::restart(image, area, state)
}
