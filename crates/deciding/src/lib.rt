// How a request is decided, on a buffer that is known to be good, by reading alone: the checks, the
// back-off, and the limits row by row. A request is a number, in `request` and `reasons` too: what
// the rules say of it is promised of any number, and 2 is the answer where it is none.
#![tactic(auto)]

ghost use Rattle.std.specs.Prelude.{◌≡◌, true, cond, ◌&&◌, ◌≤◌, ◌<◌, ltb, unwrap_or};
ghost use Rattle.std.specs.Result.{is_err};
ghost use Rattle.rules.specs.Calls.{timed, answer};
ghost use Rattle.rules.specs.declared.Event.TheVariants.{Ask as ask};
ghost use Rattle.rules.specs.Tables.{ascending};
ghost use Rattle.rules.specs.Rules.{stands, limits, first_block, refusal, ruling, refused};
ghost use Rattle.refusals.specs.Refusals.{told, check_of, above_zero};
ghost use Rattle.permits.specs.Permits.{full_for};
ghost use Rattle.buffer.specs.Layout.{view, facts_of};
ghost use Rattle.buffer.specs.Layout.{row as list_of};
ghost use Rattle.buffer.specs.Good.{good};
ghost use Rattle.buffer.specs.Lists.{Listed};
ghost use Rattle.deciding.specs.Limits.{limit_at, RowOf, waiting};

use buffer::places::Buffer;
use buffer::{lists, places as at};
use refusals::{DONE, Refusal};
use rules::Answer;

// A row of the table of limits: its number, whether it applies to the request, the most permits in
// an hour, and the list on which they stand. It is no Option: the other three are promised of a row
// that does not apply too.
#[derive(Clone, Copy)]
pub struct Row {
    pub number: u32,
    pub applies: bool,
    pub most: u32,
    pub list: usize,
}

// Request q fits the standing: 0 to 3 of an idle service, 4 of service 2 up, 5 of any.
fn fits(s: &Buffer, q: u32) -> bool
    ensures { result ≡ stands (facts_of s.now) (ask q) }
{
    match q {
        0..=3 => s[at::STANDING + q as usize] == 0,
        4 => s[at::STANDING + 2] == 2,
        _ => true,
    }
}

// The first of the checks 2, 3 and 4 that request q at t fails.
pub fn refusal(s: &Buffer, t: u32, q: u32) -> Result<(), Refusal>
    ensures { check_of result ≡ refusal (facts_of s.now) (timed t (ask q)) }
{
    clock::refuse(q <= 5, clock::timely(s, t), fits(s, q))
}

// Seconds left of the back-off that holds request q; none where none runs.
pub fn left(s: &Buffer, t: u32, q: u32) -> Option<u32>
    ensures { result ≡ above_zero (waiting (facts_of s.now) t q) }
{
    if 3 < q {
        return None;
    }
    let end = s[at::ENDS + q as usize];
    if t < end { Some(end - t) } else { None }
}

// Row i, 0 to 6, of the limits on request q: N1, F1 to F4, A1, S1.
pub fn limit(s: &Buffer, q: u32, i: usize) -> Row
    requires { i < 7 }
    ensures { RowOf (limit_at (facts_of s.now) q i) result }
{
    let on = s[at::RPM] == 1;
    let mood = s[at::MOOD];
    match i {
        0 => Row {
            number: 11,
            applies: on & (q == 5),
            most: s[at::PARAMETERS],
            list: 4,
        },
        1 => Row {
            number: 13,
            applies: on & ((q == 2) & (mood == 1)),
            most: s[at::PARAMETERS + 2],
            list: 1,
        },
        2 => Row {
            number: 14,
            applies: on & ((q == 2) & (mood == 2)),
            most: s[at::PARAMETERS + 3],
            list: 1,
        },
        3 => Row {
            number: 15,
            applies: on & ((q == 2) & (mood == 3)),
            most: s[at::PARAMETERS + 4],
            list: 1,
        },
        4 => Row {
            number: 16,
            applies: on & ((q == 2) | (q == 4)),
            most: s[at::PARAMETERS + 5],
            list: 2,
        },
        5 => Row {
            number: 17,
            applies: (q == 0) | (q == 1),
            most: s[at::HOUSE],
            list: 0,
        },
        _ => Row {
            number: 18,
            applies: q == 3,
            most: s[at::HOUSE + 1],
            list: 3,
        },
    }
}

// From t on, the seconds until the limit of a row would permit by itself; none where it does not
// block. It blocks where it applies, is not 0, and as many permits of its list are in the hour.
pub fn blocked_for(s: &Buffer, row: Row, t: u32) -> Option<u32>
    requires listed { Listed s.now row.list }
    requires list_value { ascending 0 t (list_of s.now row.list) ≡ true }
    ensures { result ≡ above_zero (cond (row.applies && ltb 0 row.most) (full_for t row.most (list_of s.now row.list)) 0) }
{
    if !row.applies {
        return None;
    }
    if row.most == 0 {
        return None;
    }
    lists::list_full_for(s, row.list, t, row.most)
}

// The first limit that blocks request q at t, with its seconds; none where none does.
fn first_block(s: &Buffer, t: u32, q: u32) -> Option<Answer>
    requires s_value { good s.now ≡ true }
    requires s_bound { (facts_of s.now).last ≤ t }
    ensures { unwrap_or result (answer 0 0) ≡ first_block (view s.now) t (limits (facts_of s.now) q) }
{
    for i in 0..7 {
        let row = limit(s, q, i);
        if let Some(seconds) = blocked_for(s, row, t) {
            return Some(Answer {
                number: row.number,
                second: seconds,
            });
        }
    }
    None
}

// The answer to request q at t, by reading alone.
pub fn decide(s: &Buffer, t: u32, q: u32) -> Result<Answer, Refusal>
    requires { good s.now ≡ true }
    ensures value { told result ≡ ruling (view s.now) (timed t (ask q)) }
    ensures refused { refused (told result) ≡ is_err result }
{
    refusal(s, t, q)?;
    if let Some(wait) = left(s, t, q) {
        return Ok(Answer {
            number: 10,
            second: wait,
        });
    }
    Ok(first_block(s, t, q).unwrap_or(DONE))
}
