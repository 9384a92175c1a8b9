// Requests, outcomes and the clock call with a journal: checked and decided by reading alone, then
// appended with their answer, then carried out, then answered. The area of the journal is lent
// after the state. A refusal changes nothing, nor does 6, where the journal is full.
#![tactic(auto, unfolding(calls::specs::Letters::how_many, calls::specs::Letters::event_of))]

ghost use Rattle.std.specs.Prelude.{◌≡◌, true};
ghost use Rattle.rules.specs.declared.Event.TheVariants.{Ask as ask, Outcome as outcome, Dropped as dropped, Tick as tick};
ghost use Rattle.rules.specs.declared.Outcome.TheVariants.{Granted as granted, Silent as silent, Rejected as rejected};
ghost use Rattle.refusals.specs.Refusals.{told};
ghost use Rattle.buffer.specs.Good.{good};
ghost use Rattle.journal.specs.Area.{Appends};
ghost use Rattle.calls.specs.Written.{when, what};
ghost use Rattle.records.specs.Records.{times, encoded};
ghost use Rattle.keeping.specs.Keeping.{Journals, EraseSays, next_of};

use buffer::places::Buffer;
use calls::Call;
use journal::{AREA, Full};
use refusals::{DONE, Refusal};
use rules::Answer;

// Appends a timed call, with its answer.
#[tactic(auto, using(records::proofs::Records::spelled, calls::proofs::Letters::many_few))]
fn keep(area: &mut [u8; AREA], call: Call, a: Answer) -> Result<(), Full>
    ensures { Appends area.old (encoded (times (when call.entry) (what call.entry)) a) result area.new }
{
    journal::append(area, &records::spell(call.letter, call.numbers, a))
}

// A timed call, on a good state and an area of its length.
fn journaled_in(state: &mut Buffer, area: &mut [u8; AREA], call: Call) -> Result<Answer, Refusal>
    requires { good state.old ≡ true }
    ensures { Journals state.old area.old (times (when call.entry) (what call.entry)) (told result) state.new area.new }
{
    let time = call.time();
    let e = call.event();
    let a = verdicts::verdict(state, time, e)?;
    keep(area, call, a).map_err(|_| Refusal::Full)?;
    events::happen_in(state, time, e)
}

// A timed call.
fn journaled(state: &mut [u32], area: &mut [u8], call: Call) -> Answer
    ensures { Journals state.old area.old (times (when call.entry) (what call.entry)) result state.new area.new }
{
    let Some(area) = area.as_mut_array() else {
        return Refusal::Buffer.into();
    };
    let Some(state) = inspect::good_mut(state) else {
        return Refusal::Buffer.into();
    };
    refusals::told(journaled_in(state, area, call))
}

// May request `kind` go to the network at `time`?
pub fn request(state: &mut [u32], area: &mut [u8], time: u32, kind: u32) -> Answer
    ensures { Journals state.old area.old (times time (ask kind)) result state.new area.new }
{
    journaled(state, area, Call::new(b'Q', &[time, kind]))
}

// What was asked of a service was granted.
pub fn granted(state: &mut [u32], area: &mut [u8], time: u32, service: u32) -> Answer
    ensures { Journals state.old area.old (times time (outcome service granted)) result state.new area.new }
{
    journaled(state, area, Call::new(b'G', &[time, service]))
}

// What was asked of a service was rejected with a cause of a column; `second` says whether a second
// network exists.
pub fn rejected(
    state: &mut [u32],
    area: &mut [u8],
    time: u32,
    service: u32,
    cause: u32,
    second: u32,
    column: u32,
) -> Answer
    ensures { Journals state.old area.old (times time (outcome service (rejected cause second column))) result state.new area.new }
{
    journaled(
        state,
        area,
        Call::new(b'J', &[time, service, cause, second, column]),
    )
}

// What was asked of a service had no answer.
pub fn silent(state: &mut [u32], area: &mut [u8], time: u32, service: u32) -> Answer
    ensures { Journals state.old area.old (times time (outcome service silent)) result state.new area.new }
{
    journaled(state, area, Call::new(b'S', &[time, service]))
}

// Service 2, which was up, was dropped.
pub fn dropped(state: &mut [u32], area: &mut [u8], time: u32) -> Answer
    ensures { Journals state.old area.old (times time dropped) result state.new area.new }
{
    journaled(state, area, Call::new(b'D', &[time]))
}

// The clock call.
pub fn tick(state: &mut [u32], area: &mut [u8], time: u32) -> Answer
    ensures { Journals state.old area.old (times time tick) result state.new area.new }
{
    journaled(state, area, Call::new(b'T', &[time]))
}

// Erases the area: the journal that begins with a new image.
pub fn erase(area: &mut [u8]) -> Answer
    ensures { EraseSays area.old result area.new }
{
    let Some(area) = area.as_mut_array::<AREA>() else {
        return Refusal::Buffer.into();
    };
    journal::erase(area);
    DONE
}

// The slot that the next append writes, by its number; 6 where none begins with 255.
#[tactic(auto, using(crate::proofs::Calling::next_none, crate::proofs::Calling::next_some), unfolding(crate::specs::Keeping::next_of))]
pub fn next(area: &[u8]) -> Answer
    ensures { result ≡ next_of area.now }
{
    let Some(area) = area.as_array() else {
        return Refusal::Buffer.into();
    };
    match journal::first_free(area) {
        Some(slot) => Answer {
            number: 0,
            second: slot as u32,
        },
        None => Refusal::Full.into(),
    }
}
