// The back-off of a service: a small value that each outcome hands back moved on, its two places,
// and how long it waits.
#![tactic(auto)]

ghost use Rattle.std.specs.Prelude.{◌≡◌, true, ◌+◌, ◌%◌, ◌<◌, ◌≤◌};
ghost use Rattle.rules.specs.Tables.{one_more, interval};
ghost use Rattle.rules.specs.Rules.{wait, failed};
ghost use Rattle.buffer.specs.Layout.{facts_of};
ghost use Rattle.buffer.specs.Good.{good};
ghost use Rattle.services.specs.Services.{index_of};
ghost use Rattle.backoff.specs.Backoffs.{clear, later, loaded, stored, backed};

use buffer::places::Buffer;
use buffer::{fields, places as at};
use rules::Answer;
use services::Service;

// The back-off of one service: its failures in a row, and the time at which its wait ends; 0 is
// none.
#[derive(Clone, Copy)]
pub struct Backoff {
    pub failures: u32,
    pub end: u32,
}

impl Backoff {
    // After a grant there is none.
    pub fn granted(self) -> Backoff
        ensures { result ≡ clear }
    {
        self.cleared()
    }

    // After a failure: one more, to 255 at most, and a new end.
    fn failed(self, end: u32) -> Backoff
        ensures { result ≡ later self end }
    {
        Backoff {
            failures: self.failures.saturating_add(1).min(255),
            end,
        }
    }

    // No failure, and no end.
    pub fn cleared(self) -> Backoff
        ensures { result ≡ clear }
    {
        Backoff {
            failures: 0,
            end: 0,
        }
    }
}

// The back-off of a service.
pub fn load(s: &Buffer, service: Service) -> Backoff
    ensures { result ≡ loaded s.now (index_of service) }
{
    let i = service.index();
    Backoff {
        failures: s[at::FAILURES + i],
        end: s[at::ENDS + i],
    }
}

// Stores the back-off of a service.
pub fn store(s: &mut Buffer, service: Service, b: Backoff)
    ensures { s.new ≡ stored s.old (index_of service) b }
{
    let i = service.index();
    s[at::FAILURES + i] = b.failures;
    s[at::ENDS + i] = b.end;
}

// The wait of a base interval: it and the remainder by it of what the card draws.
fn spread_out(x: u64, base: u32) -> u32
    requires { (1 ≤ base) × (base ≤ 65535) }
    ensures { result ≡ base + x % base }
{
    base + (x % u64::from(base)) as u32
}

// The base interval of one failure more than n: the last where there are fewer.
fn base(s: &Buffer, n: u32) -> u32
    requires { good s.now ≡ true }
    ensures { result ≡ interval (facts_of s.now).mode.intervals (one_more n) }
{
    let last = s[at::COUNT] - 1;
    s[at::INTERVALS + n.min(last) as usize]
}

// How long a service waits after one failure more. A card draws the same from 15 failures on, so
// the count for that need not stop at 255.
pub fn wait(s: &Buffer, service: Service) -> u32
    requires { good s.now ≡ true }
    ensures { result ≡ wait (facts_of s.now) (index_of service) }
{
    let n = s[at::FAILURES + service.index()];
    spread_out(mixing::draw(fields::imsi(s), n + 1), base(s, n))
}

// The answer to a failure of a service whose action is n; with NFM 0 it is 23 in place of 20.
pub fn failing(s: &Buffer, service: Service, n: u32) -> Answer
    requires { good s.now ≡ true }
    ensures { result ≡ failed (facts_of s.now) (index_of service) n }
{
    if n != 20 {
        return Answer {
            number: n,
            second: 0,
        };
    }
    if s[at::NFM] != 1 {
        return Answer {
            number: 23,
            second: 0,
        };
    }
    Answer {
        number: 20,
        second: wait(s, service),
    }
}

// A service backs off for w seconds from t where the answer's number n is 20.
pub fn back(s: &mut Buffer, t: u32, service: Service, n: u32, w: u32)
    requires { n ≡ 20 → t + w < 4294967296 }
    ensures { s.new ≡ backed s.old t (index_of service) n w }
{
    if n == 20 {
        store(s, service, load(s, service).failed(t + w));
    }
}
