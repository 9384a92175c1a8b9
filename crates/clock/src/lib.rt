// The clock, which every timed call moves first, and the leaks of the counters. With it stands what
// all timed calls share: the order of the checks 2, 3 and 4, and the check of the time.
#![tactic(auto)]

ghost use Rattle.std.specs.Prelude.{◌≡◌, true, ◌&&◌, ◌*◌, ◌/◌, ◌<◌, ◌≤◌, get_or, leb};
ghost use Rattle.rules.specs.Tables.{highest_time};
ghost use Rattle.rules.specs.Rules.{check, moved};
ghost use Rattle.refusals.specs.Refusals.{check_of};
ghost use Rattle.buffer.specs.Places.{LAST};
ghost use Rattle.buffer.specs.Layout.{spread, rows, facts_of, view};
ghost use Rattle.buffer.specs.Good.{good};
ghost use Rattle.clock.specs.Clock.{gone, passed_of, drained, leaked};

use buffer::places as at;
use buffer::places::Buffer;
use refusals::Refusal;

// Leak points of a rate in so many seconds after the opening; a rate of 0 has none.
fn points(rate: u32, seconds: u32) -> u32
    requires { rate ≤ 255 }
    ensures { result ≡ seconds / (rate * 3600) }
{
    if rate == 0 {
        return 0;
    }
    seconds / (rate * 3600)
}

// Leak points after the last time, up to t.
fn gone(rate: u32, opened: u32, last: u32, t: u32) -> u32
    requires { rate ≤ 255 }
    ensures { result ≡ gone rate opened last t }
{
    let before = points(rate, last.saturating_sub(opened));
    points(rate, t.saturating_sub(opened)).saturating_sub(before)
}

// The points of leak rate i that are passed when the clock goes to t.
fn passed(s: &Buffer, i: usize, t: u32) -> u32
    requires s_value { good s.now ≡ true }
    requires i_bound { i < 3 }
    ensures { result ≡ passed_of s.now i t }
{
    gone(s[at::RATES + i], s[at::OPENED], s[at::LAST], t)
}

// Counter i loses g, and is never below 0.
fn drain(s: &mut Buffer, i: usize, g: u32)
    requires { i < 6 }
    ensures { s.new ≡ drained s.old i g }
{
    s[at::COUNTERS + i] = s[at::COUNTERS + i].saturating_sub(g);
}

// The six counters leak: g1 points of LR-1, g2 of LR-2, g3 of LR-3.
fn leak(s: &mut Buffer, g1: u32, g2: u32, g3: u32)
    ensures { s.new ≡ leaked s.old g1 g2 g3 }
{
    drain(s, 0, g1);
    drain(s, 1, g2);
    drain(s, 2, g3);
    drain(s, 3, g3);
    drain(s, 4, g3);
    drain(s, 5, g3);
}

// The clock goes to t, and the counters leak.
pub fn advance(s: &mut Buffer, t: u32)
    requires { good s.old ≡ true }
    ensures { s.new ≡ spread (moved t (facts_of s.old)) (rows (view s.old).lists) }
{
    let g1 = passed(s, 0, t);
    let g2 = passed(s, 1, t);
    let g3 = passed(s, 2, t);
    leak(s, g1, g2, g3);
    s[at::LAST] = t;
}

// The time is not below the last, nor too high.
pub fn timely(s: &Buffer, t: u32) -> bool
    ensures { result ≡ (leb (get_or s.now LAST 0) t && leb t highest_time) }
{
    (s[at::LAST] <= t) & (t <= rules::LATEST)
}

// The first of the checks 2, 3 and 4 that fails: of the range, the time and the standing.
pub fn refuse(range: bool, time: bool, standing: bool) -> Result<(), Refusal>
    ensures { check_of result ≡ check range 2 (check time 3 (check standing 4 0)) }
{
    if !range {
        return Err(Refusal::Range);
    }
    if !time {
        return Err(Refusal::Time);
    }
    if !standing {
        return Err(Refusal::Standing);
    }
    Ok(())
}
