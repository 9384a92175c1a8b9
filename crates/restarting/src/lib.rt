// Restart: the state after an image and the journal that was begun with it. All of it is judged on
// a copy of the image before anything is written; then a torn record's slot is filled, from the
// back, and then the state is written.
#![tactic(auto)]

ghost use Rattle.std.specs.Prelude.{◌≡◌, true, ◌≤◌, length, get_or, take, drop, Some};
ghost use Rattle.buffer.specs.Good.{good};
ghost use Rattle.calls.specs.Letters.{how_many};
ghost use Rattle.records.specs.Records.{types, longest_line, numbers_in, line_by, timed_by};
ghost use Rattle.journal.specs.Area.{slots, replay, restart};
ghost use Rattle.restarting.specs.Restarting.{step_by, step, RestartSays, Answers, Recovers};

use buffer::places::Buffer;
use journal::{AREA, Survey};
use records::Record;
use refusals::{DONE, Refusal};
use rules::Answer;

// ---- A record

// Whether the gate would write the record of the timed call of a letter and the numbers behind it,
// which go to v, on a good state; the call is carried out there.
#[tactic(auto, using(calls::proofs::Letters::many_few))]
fn timed(state: &mut Buffer, rec: &Record, x: u8, v: &mut [u32]) -> bool
    requires state_value { good state.old ≡ true }
    requires v_len { (length v.old ≡ how_many x) × (1 ≤ length v.old) }
    ensures { Answers (step_by state.old rec.now (timed_by x (numbers_in (how_many x) rec.now))) result state.new }
{
    records::numbers(rec, v);
    match events::happen_in(state, v[0], calls::event(x, v)) {
        Ok(a) => records::same(&records::spell(x, v, a), rec),
        Err(_) => false,
    }
}

// The same of a record that begins with no A.
#[tactic(auto, using(crate::proofs::Stepping::redo_none, crate::proofs::Stepping::timed_none, crate::proofs::Stepping::of_five, calls::proofs::Letters::many_few))]
fn timed_record(state: &mut Buffer, rec: &Record, x: u8) -> bool
    requires { good state.old ≡ true }
    ensures { Answers (step_by state.old rec.now (timed_by x (numbers_in (how_many x) rec.now))) result state.new }
{
    let n = calls::how_many(x);
    if n == 0 {
        return false;
    }
    let mut v = [0u32; 5];
    timed(state, rec, x, &mut v[..n])
}

// Whether the gate would write the record of an AT line, on a good state; the line is obeyed there.
fn line(state: &mut Buffer, rec: &Record, text: &[u8]) -> bool
    requires state_value { good state.old ≡ true }
    requires text_len_bound { length text.now ≤ longest_line }
    ensures { Answers (step_by state.old rec.now (Some (types text.now))) result state.new }
{
    let mut room = [0u8; 16];
    match command::command_in(state, text, &mut room) {
        Ok(a) => records::same(&records::spell_line(text, a), rec),
        Err(_) => false,
    }
}

// The same of a record that begins with A.
#[tactic(auto, using(crate::proofs::Stepping::redo_none, crate::proofs::Stepping::line_none))]
fn line_record(state: &mut Buffer, rec: &Record) -> bool
    requires { good state.old ≡ true }
    ensures { Answers (step_by state.old rec.now (line_by (get_or (numbers_in 1 rec.now) 0 0) (drop 5 rec.now))) result state.new }
{
    let mut v = [0u32; 1];
    records::numbers(rec, &mut v);
    let n = v[0];
    if 96 < n {
        return false;
    }
    let end = 5 + n as usize;
    line(state, rec, &rec[5..end])
}

// Whether the gate would write a record, on a good state; its call is carried out there.
#[tactic(auto, using(crate::proofs::Stepping::begins_line, crate::proofs::Stepping::begins_timed), unfolding(crate::specs::Restarting::step))]
fn redo(state: &mut Buffer, rec: &Record) -> bool
    requires { good state.old ≡ true }
    ensures { Answers (step state.old rec.now) result state.new }
{
    match rec[0] {
        b'A' => line_record(state, rec),
        x => timed_record(state, rec, x),
    }
}

// ---- The journal

// The first n records, one after the other.
#[tactic(auto, using(journal::proofs::Replaying::replay_on, journal::proofs::Replaying::replay_off, journal::proofs::Replaying::replay_end))]
fn replay(state: &mut Buffer, area: &[u8; AREA], n: usize) -> bool
    requires state_value { good state.old ≡ true }
    requires n_bound { n ≤ 512 }
    ensures { Answers (replay step state.old (take n (slots area.now))) result state.new }
{
    for i in 0..n {
        if !redo(state, journal::record(area, i)) {
            return false;
        }
    }
    true
}

// All whole records, and then a torn one's slot is filled. Where it is refused, the area stays.
#[tactic(auto, using(crate::proofs::Recovering::recovers_bad, crate::proofs::Recovering::recovers_clean, crate::proofs::Recovering::recovers_stop, crate::proofs::Recovering::recovers_torn, journal::proofs::Replaying::says_most, journal::proofs::Replaying::says_clean, journal::proofs::Replaying::says_torn, journal::proofs::Replaying::torn_below))]
fn recover(state: &mut Buffer, area: &mut [u8; AREA]) -> bool
    requires { good state.old ≡ true }
    ensures { Recovers (restart step state.old area.old) area.old result state.new area.new }
{
    match journal::look(area) {
        Survey::Bad => false,
        Survey::Clean(n) => replay(state, area, n),
        Survey::Torn(n) => {
            if !replay(state, area, n) {
                return false;
            }
            journal::fill(area, n);
            true
        }
    }
}

// The state after an image and the journal that was begun with it; what is in `state` does not
// matter. 1 for the length of the area or the state; 7 for a bad image, a whole record that the
// gate would not write there, or an area other than whole records, at most one torn, then 255s.
pub fn restart(image: &[u32], area: &mut [u8], state: &mut [u32]) -> Answer
    ensures { RestartSays image.now area.old state.old result area.new state.new }
{
    let Some(area) = area.as_mut_array() else {
        return Refusal::Buffer.into();
    };
    let Some(state) = state.as_mut_array() else {
        return Refusal::Buffer.into();
    };
    let Some(image) = inspect::good(image) else {
        return Refusal::Image.into();
    };
    let mut own = *image;
    if !recover(&mut own, area) {
        return Refusal::Image.into();
    }
    *state = own;
    DONE
}
