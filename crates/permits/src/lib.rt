// One list of permit times in its own 255 places, the oldest first, those that are not in use 0.
// One routine adds to it, and one says for how long it is full. They know of no buffer: the places
// are lent to them.
#![tactic(auto)]

ghost use Rattle.std.specs.Prelude.{◌≡◌, true, ◌+◌, ◌≤◌, ◌<◌, min, length, take};
ghost use Rattle.rules.specs.Tables.{ascending};
ghost use Rattle.permits.specs.Permits.{Holds, appended, full_for};
ghost use Rattle.refusals.specs.Refusals.{above_zero};

// Adds t as the newest of a list's own 255 places, of which n are used; at 255 the oldest goes.
// Returns the new length.
pub fn append(p: &mut [u32], n: u32, t: u32) -> u32
    requires { Holds p.old n }
    ensures { (result ≡ min (n + 1) 255) × (p.new ≡ appended p.old n t) }
{
    if n < 255 {
        p[n as usize] = t;
        return n + 1;
    }
    p.copy_within(1.., 0);
    p[254] = t;
    255
}

// The seconds until fewer than `most` of the first n times, which rise to t, are in the hour; none
// where fewer are. Only the time `most` places from the newest is looked at.
pub fn full_for(p: &[u32], n: u32, t: u32, most: u32) -> Option<u32>
    requires n_in_bounds { n ≤ length p.now }
    requires p_value { ascending 0 t (take n p.now) ≡ true }
    requires most_nonzero { 0 < most }
    ensures { result ≡ above_zero (full_for t most (take n p.now)) }
{
    if n < most {
        return None;
    }
    let i = n as usize - most as usize;
    let age = t - p[i];
    if age < 3600 { Some(3600 - age) } else { None }
}
