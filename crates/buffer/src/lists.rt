// The five lists of permit times: 0 attach, 1 activation, 2 PDP, 3 SMS, 4 reset. Each has 255
// places of its own, lent on as a part of the buffer to the routines of `permits`, and its length
// in another place.
ghost use Rattle.std.specs.Prelude.{◌≡◌, true, ◌<◌};
ghost use Rattle.rules.specs.Tables.{ascending};
ghost use Rattle.buffer.specs.Layout.{row};
ghost use Rattle.buffer.specs.Lists.{Listed, permitted};
ghost use Rattle.permits.specs.Permits.{full_for};
ghost use Rattle.refusals.specs.Refusals.{above_zero};

use crate::places as at;
use crate::places::Buffer;

// A permit at t on list k: the list's places are lent to `append`, and its new length is stored. No
// other place changes.
pub fn permit_on(s: &mut Buffer, k: usize, t: u32)
    requires { Listed s.old k }
    ensures { s.new ≡ permitted s.old k t }
{
    let j = at::LENGTHS + k;
    let a = at::LISTS + at::ROOM * k;
    let e = a + at::ROOM;
    let n = s[j];
    let m = permits::append(&mut s[a..e], n, t);
    s[j] = m;
}

// The seconds until fewer than `most` of list k, which rises to t, are in the hour; none where
// fewer are.
pub fn list_full_for(s: &Buffer, k: usize, t: u32, most: u32) -> Option<u32>
    requires listed { Listed s.now k }
    requires k_value { ascending 0 t (row s.now k) ≡ true }
    requires most_nonzero { 0 < most }
    ensures { result ≡ above_zero (full_for t most (row s.now k)) }
{
    let a = at::LISTS + at::ROOM * k;
    let e = a + at::ROOM;
    permits::full_for(&s[a..e], s[at::LENGTHS + k], t, most)
}
