// Scans of a whole slice. They look at every number and keep a flag: four to five times faster than
// leaving at the first bad one.
ghost use Rattle.std.specs.Prelude.{◌≡◌};
ghost use Rattle.rules.specs.Tables.{ascending};
ghost use Rattle.buffer.specs.Good.{at_most};

// Every number is at most hi.
pub(crate) fn capped(p: &[u32], hi: u32) -> bool
    ensures { result ≡ at_most hi p.now }
{
    let mut ok = true;
    for &x in p {
        ok &= x <= hi;
    }
    ok
}

// None is below the one before it, the first not below lo, and none is above hi: of numbers that
// rise, where the last is not.
pub fn rising(p: &[u32], lo: u32, hi: u32) -> bool
    ensures { result ≡ ascending lo hi p.now }
{
    let mut ok = true;
    let mut low = lo;
    for &x in p {
        ok &= low <= x;
        low = x;
    }
    ok & (p.is_empty() | (low <= hi))
}
