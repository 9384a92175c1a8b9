// The lines of the table, as the code tests them. The numbers of what is used come first: without
// them no list can be cut. The length is a clause here and no type: the places of the first version
// stand in front in every one, and `lines` speaks of the whole buffer.
ghost use Rattle.std.specs.Prelude.{◌≡◌, true, ◌&&◌, ◌+◌, ◌<◌, ◌≤◌, length, get_or};
ghost use Rattle.buffer.specs.Places.{BASE, COUNT, LENGTHS};
ghost use Rattle.buffer.specs.Segments.{part};
ghost use Rattle.buffer.specs.Good.{at_most, bytes, count_good, row_good, every, lines, some_lines};

use crate::scan::{capped, rising};
use buffer::fields::imsi;
use buffer::places as at;

// The n numbers from a place on are at most hi.
fn band(s: &[u32], a: usize, n: usize, hi: u32) -> bool
    requires { a + n ≤ length s.now }
    ensures { result ≡ at_most hi (part s.now a n) }
{
    let e = a + n;
    capped(&s[a..e], hi)
}

// Places 9 and 50-54: how many intervals and permit times are used.
fn counted(s: &[u32]) -> bool
    requires { BASE ≤ length s.now }
    ensures { result ≡ (count_good (get_or s.now COUNT 0) && bytes (part s.now LENGTHS 5)) }
{
    (1 <= s[at::COUNT]) & (s[at::COUNT] <= 10) & band(s, at::LENGTHS, 5, 255)
}

// Places 0 and 2-8: letters, times, IMSI, flags.
fn headed(s: &[u32]) -> bool
    requires { BASE ≤ length s.now }
    ensures { result ≡ some_lines s.now 0 4 }
{
    let number = imsi(s);
    (s[at::LETTERS] == 0x00575250)
        & ((s[at::OPENED] <= s[at::LAST]) & (s[at::LAST] <= rules::LATEST))
        & (number <= rules::HIGHEST_IMSI)
        & ((s[at::NFM] <= 1) & (s[at::START] <= 1) & (s[at::RPM] <= 1))
}

// Places 10-19: the intervals.
fn scheduled(s: &[u32]) -> bool
    requires in_bounds { BASE ≤ length s.now }
    requires s_bound { get_or s.now COUNT 0 ≤ 10 }
    ensures { result ≡ some_lines s.now 5 1 }
{
    let n = s[at::COUNT] as usize;
    let e = at::INTERVALS + n;
    rising(&s[at::INTERVALS..e], 1, 65535) & capped(&s[e..at::PARAMETERS], 0)
}

// Places 20-34: the numbers of one byte.
fn small(s: &[u32]) -> bool
    requires { BASE ≤ length s.now }
    ensures { result ≡ some_lines s.now 6 4 }
{
    band(s, at::PARAMETERS, 6, 255)
        & band(s, at::HOUSE, 2, 255)
        & band(s, at::RATES, 3, 255)
        & band(s, at::FAILURES, 4, 255)
}

// Places 35-49: back-off ends, standing, mood, counters.
fn served(s: &[u32]) -> bool
    requires { BASE ≤ length s.now }
    ensures { result ≡ some_lines s.now 10 4 }
{
    (band(s, at::ENDS, 4, 4000131069)
        & ((s[at::NFM] == 1) | band(s, at::ENDS, 4, 0))
        & ((s[at::STANDING + 2] != 2) | (s[at::ENDS + 2] == 0)))
        & ((s[at::STANDING] <= 1)
            & (s[at::STANDING + 1] <= 1)
            & (s[at::STANDING + 2] <= 2)
            & (s[at::STANDING + 3] <= 1))
        & (s[at::MOOD] <= 3)
        & band(s, at::COUNTERS, 6, 255)
}

// List k of the five: in order and within the times, its unused places 0.
fn row(s: &[u32], k: usize) -> bool
    requires in_bounds { BASE ≤ length s.now }
    requires k_bound { k < 5 }
    requires k_bound_2 { get_or s.now (LENGTHS + k) 0 ≤ 255 }
    ensures { result ≡ row_good s.now k }
{
    let a = at::LISTS + at::ROOM * k;
    let m = a + s[at::LENGTHS + k] as usize;
    let e = a + at::ROOM;
    rising(&s[a..m], s[at::OPENED], s[at::LAST]) & capped(&s[m..e], 0)
}

// Places 55-1329: the five lists.
fn listed(s: &[u32]) -> bool
    requires in_bounds { BASE ≤ length s.now }
    requires s_value { bytes (part s.now LENGTHS 5) ≡ true }
    ensures { result ≡ some_lines s.now 15 1 }
{
    row(s, 0) & row(s, 1) & row(s, 2) & row(s, 3) & row(s, 4)
}

// Every line but length and version, which is the same for a buffer of any version.
pub fn all(s: &[u32]) -> bool
    requires { BASE ≤ length s.now }
    ensures { result ≡ every (lines s.now) }
{
    if !counted(s) {
        return false;
    }
    headed(s) & scheduled(s) & small(s) & served(s) & listed(s)
}
