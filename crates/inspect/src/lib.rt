// Judges a whole buffer by document 01's table: its length, its version, and every line.
#![tactic(auto)]

mod lines;
pub mod scan;

ghost use Rattle.std.specs.Prelude.{◌≡◌, true, false, ◌≤◌, MatchOption};
ghost use Rattle.std.specs.Borrow.{sem};
ghost use Rattle.buffer.specs.Places.{BASE};
ghost use Rattle.buffer.specs.Good.{good, good_as};
ghost use Rattle.inspect.specs.Lent.{LendsWhole};

use buffer::places;
use buffer::places::Buffer;

// Whether it is a good buffer of `size` numbers and of a version. The lines of the first version
// are those of every one.
pub fn is_good_as(s: &[u32], size: usize, version: u32) -> bool
    requires { BASE ≤ size }
    ensures { result ≡ good_as size version s.now }
{
    if s.len() != size {
        return false;
    }
    if s[places::VERSION] != version {
        return false;
    }
    lines::all(s)
}

// Whether the buffer keeps every line of the table. Any length and any contents are accepted.
pub fn is_good(s: &[u32]) -> bool
    ensures { result ≡ good s.now }
{
    is_good_as(s, places::SIZE, places::CURRENT)
}

// The whole buffer, with its length in its type, where it is good.
pub fn good(s: &[u32]) -> Option<&Buffer>
    ensures { MatchOption result (good s.now ≡ false) (λ whole. (good s.now ≡ true) × (whole.now ≡ s.now)) }
{
    if !is_good(s) {
        return None;
    }
    s.as_array()
}

// The same, to be written. What is written there stands in the buffer.
pub fn good_mut(s: &mut [u32]) -> Option<&mut Buffer>
    ensures* writes_back { sem 𝓛 (LendsWhole s.entry result) }
    ensures cases { MatchOption result (good s.old ≡ false) (λ whole. (good s.old ≡ true) × (whole.now ≡ s.old)) }
{
    if !is_good(s) {
        return None;
    }
    s.as_mut_array()
}
