// Requests, on a buffer that is known to be good: decided by reading alone, then carried out by
// writing. `send` and `tally` are what the reset that the gate orders has in common with request 5.
#![tactic(auto)]

ghost use Rattle.std.specs.Prelude.{◌≡◌, true, ◌<◌};
ghost use Rattle.std.specs.Result.{is_err};
ghost use Rattle.rules.specs.Calls.{timed};
ghost use Rattle.rules.specs.declared.Event.TheVariants.{Ask as ask};
ghost use Rattle.rules.specs.Rules.{refused};
ghost use Rattle.refusals.specs.Refusals.{told};
ghost use Rattle.buffer.specs.Good.{Shape, good};
ghost use Rattle.clock.specs.Call.{Says};
ghost use Rattle.request.specs.Request.{bumped, tallied, stood, listed, sent};

use buffer::places::Buffer;
use buffer::{lists, places as at};
use refusals::Refusal;
use rules::Answer;

// The standing after a permit of request q.
fn stand(s: &mut Buffer, q: u32)
    ensures { s.new ≡ stood s.old q }
{
    match q {
        0..=3 => s[at::STANDING + q as usize] = 1,
        4 => s[at::STANDING + 2] = 0,
        _ => s[at::STANDING..at::STANDING + 4].fill(0),
    }
}

// The lists after a permit of request q at t.
fn list(s: &mut Buffer, q: u32, t: u32)
    requires { Shape s.old }
    ensures { s.new ≡ listed s.old q t }
{
    match q {
        0 | 1 => lists::permit_on(s, 0, t),
        2 => {
            lists::permit_on(s, 1, t);
            lists::permit_on(s, 2, t);
        }
        3 => lists::permit_on(s, 3, t),
        4 => lists::permit_on(s, 2, t),
        _ => lists::permit_on(s, 4, t),
    }
}

// What a permit of request q at t changes, once the clock is at t.
pub fn send(s: &mut Buffer, t: u32, q: u32)
    requires { Shape s.old }
    ensures { s.new ≡ sent s.old q t }
{
    stand(s, q);
    list(s, q, t);
    if q == 5 {
        s[at::DUE] = 0;
    }
}

// Counter i rises by one, to 255 at most.
fn bump(s: &mut Buffer, i: usize)
    requires { i < 6 }
    ensures { s.new ≡ bumped s.old i }
{
    s[at::COUNTERS + i] = s[at::COUNTERS + i].saturating_add(1).min(255);
}

// The counters after answer n: a block by N1 or F1-F4 raises its own, an ordered reset C-R-1.
pub fn tally(s: &mut Buffer, n: u32)
    ensures { s.new ≡ tallied s.old n }
{
    if let 11..=16 = n {
        bump(s, (n - 11) as usize);
    }
}

// A request on a good buffer.
pub fn request_in(s: &mut Buffer, t: u32, q: u32) -> Result<Answer, Refusal>
    requires { good s.old ≡ true }
    ensures says { Says s.old (timed t (ask q)) (told result) s.new }
    ensures refused { refused (told result) ≡ is_err result }
{
    let a = deciding::decide(s, t, q)?;
    clock::advance(s, t);
    match a.number {
        0 => send(s, t, q),
        n => tally(s, n),
    }
    Ok(a)
}
