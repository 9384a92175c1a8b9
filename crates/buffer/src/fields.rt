// What is read from two places, or written to two: the IMSI, and the two flags of an AT line. Any
// other number is read and written by its place's name.
ghost use Rattle.std.specs.Prelude.{◌≡◌, ◌+◌, ◌*◌, ◌≤◌, ◌^◌, length, get_or, set};
ghost use Rattle.buffer.specs.Places.{BASE, NFM, QUOTIENT, REMAINDER, START};

use crate::places as at;
use crate::places::Buffer;

// The IMSI as a number.
pub fn imsi(s: &[u32]) -> u64
    requires { BASE ≤ length s.now }
    ensures { result ≡ get_or s.now QUOTIENT 0 * 2 ^ 32 + get_or s.now REMAINDER 0 }
{
    u64::from(s[at::QUOTIENT]) * 4294967296 + u64::from(s[at::REMAINDER])
}

// Stores NFM and Start Timer.
pub fn set_flags(s: &mut Buffer, nfm: u32, start: u32)
    ensures { s.new ≡ set (set s.old NFM nfm) START start }
{
    s[at::NFM] = nfm;
    s[at::START] = start;
}
