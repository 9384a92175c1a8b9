// The timed reset of CLP.03, as far as a rejection sets it: which rejections T1 waits from, and
// when the reset is due then.
#![tactic(auto)]

ghost use Rattle.std.specs.Prelude.{◌≡◌, true, ◌&&◌, ◌+◌, ◌*◌, ◌%◌, ◌≤◌, ltb, eqb};
ghost use Rattle.rules.specs.declared.Outcome.TheVariants.{Rejected as rejected};
ghost use Rattle.rules.specs.Tables.{highest_time, permanent};
ghost use Rattle.rules.specs.Rules.{due_on};
ghost use Rattle.buffer.specs.Layout.{facts_of};
ghost use Rattle.buffer.specs.Good.{good};

use buffer::places::Buffer;
use buffer::{fields, places as at};

// Whether a rejection is "permanent", by RMM6: MM 2, 3, 6; GMM 2, 3, 6, 7, 8.
#[tactic(auto, unfolding(rules::specs::Tables::permanent))]
fn permanent(column: u32, cause: u32) -> bool
    ensures { result ≡ permanent column cause }
{
    match column {
        0 => matches!(cause, 2 | 3 | 6),
        1 => matches!(cause, 2 | 3 | 6 | 7 | 8),
        _ => false,
    }
}

// How long after it the module is reset, by what the card draws: in the window of a tenth less to a
// tenth more than 360 T1 seconds.
fn delay(x: u64, t1: u32) -> u32
    requires { t1 ≤ 255 }
    ensures { result ≡ 324 * t1 + x % (72 * t1 + 1) }
{
    let window = 72 * t1 + 1;
    324 * t1 + (x % u64::from(window)) as u32
}

// Whether T1 may begin to run: it is above 0, RPM is 1, and no reset is due.
#[tactic(auto, unfolding(buffer::specs::Layout::facts_of))]
fn may_run(s: &Buffer) -> bool
    ensures { result ≡ ((ltb 0 (facts_of s.now).opening.T1 && eqb (facts_of s.now).opening.rpm 1) && eqb (facts_of s.now).due 0) }
{
    ((0 < s[at::PARAMETERS + 1]) & (s[at::RPM] == 1)) & (s[at::DUE] == 0)
}

// The due time after a rejection at t, as the number that place 1330 of the table holds: 0 is none.
// Whether a second network exists does not matter.
pub fn due(s: &Buffer, t: u32, column: u32, cause: u32) -> u32
    requires s_value { good s.now ≡ true }
    requires t_le_highest_time { t ≤ highest_time }
    ensures { result ≡ due_on t (rejected cause 0 column) (facts_of s.now) }
{
    if !(permanent(column, cause) & may_run(s)) {
        return s[at::DUE];
    }
    t + delay(mixing::draw(fields::imsi(s), 0), s[at::PARAMETERS + 1])
}
