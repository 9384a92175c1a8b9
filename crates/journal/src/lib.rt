// The journal: an area of 65,536 bytes, 512 slots of 128 for a record each. A record is written
// front to back over bytes of 255, a byte with each store, and its slot is filled again from the
// back. Nothing here knows what a record means.
#![tactic(auto)]

ghost use Rattle.std.specs.Prelude.{◌≡◌, true, false, ◌≤◌, ◌<◌, length, drop, set, replicate, MatchOption};
ghost use Rattle.journal.specs.Area.{slots, slot, written, filled, erased, free, count, survey, Appends};

// The area's bytes, a slot's, and how many slots there are.
pub const AREA: usize = 65536;

pub const SLOT: usize = 128;

const SLOTS: usize = 512;

// What a look at the area finds: a bad area; or n whole records, and behind them nothing, or a torn
// one.
#[derive(Clone, Copy)]
pub enum Survey {
    Bad,
    Clean(usize),
    Torn(usize),
}

// No slot begins with 255.
#[derive(Clone, Copy, Debug, PartialEq, Eq)]
pub struct Full;

// The first slot that begins with 255.
#[tactic(auto, using(crate::proofs::Reading::free_here, crate::proofs::Reading::free_on, crate::proofs::Reading::free_end))]
pub fn first_free(area: &[u8; AREA]) -> Option<usize>
    ensures { MatchOption result (free (slots area.now) ≡ 512) (λ n. (n ≡ free (slots area.now)) × (n < 512)) }
{
    for i in 0..SLOTS {
        if area[i * SLOT] == 255 {
            return Some(i);
        }
    }
    None
}

// The one store of the journal: byte b at a place, where it does not stand there already. As it is
// not made of every byte, no compiler makes one copy or filling of a loop of it, in an order of its
// own.
fn put(area: &mut [u8; AREA], at: usize, b: u8)
    requires { at < 65536 }
    ensures { area.new ≡ set area.old at b }
{
    if area[at] == b {
        return;
    }
    area[at] = b;
}

// The first n stores of an append, front to back: what a cut after n bytes leaves.
#[tactic(auto, using(crate::proofs::Bytes::written_zero, crate::proofs::Bytes::written_suc))]
pub fn write_first(area: &mut [u8; AREA], at: usize, rec: &[u8; SLOT], n: usize)
    requires { (at < 512) × (n ≤ 128) }
    ensures { area.new ≡ written area.old at rec.now n }
{
    for k in 0..n {
        put(area, at * SLOT + k, rec[k]);
    }
}

// Appends a record: to the first slot that begins with 255, all 128 bytes.
pub fn append(area: &mut [u8; AREA], rec: &[u8; SLOT]) -> Result<(), Full>
    ensures { Appends area.old rec.now result area.new }
{
    let at = first_free(area).ok_or(Full)?;
    write_first(area, at, rec, 128);
    Ok(())
}

// The first n stores of a filling, from the back: what a cut after n bytes leaves.
#[tactic(auto, using(crate::proofs::Bytes::filled_zero, crate::proofs::Bytes::filled_suc))]
pub fn fill_last(area: &mut [u8; AREA], at: usize, n: usize)
    requires { (at < 512) × (n ≤ 128) }
    ensures { area.new ≡ filled area.old at n }
{
    for k in 0..n {
        put(area, at * SLOT + 127 - k, 255);
    }
}

// The filling: all 128.
pub fn fill(area: &mut [u8; AREA], at: usize)
    requires { at < 512 }
    ensures { area.new ≡ filled area.old at 128 }
{
    fill_last(area, at, 128);
}

// Record i, as a part of the area.
pub fn record(area: &[u8; AREA], i: usize) -> &[u8; SLOT]
    requires { i < 512 }
    ensures { result.now ≡ slot area.now i }
{
    let (slots, _) = area.as_chunks();
    &slots[i]
}

// How many whole records stand at the front.
#[tactic(auto, using(crate::proofs::Reading::count_free, crate::proofs::Reading::count_torn, crate::proofs::Reading::count_on, crate::proofs::Reading::count_end))]
pub fn whole_count(area: &[u8; AREA]) -> usize
    ensures { result ≡ count area.now }
{
    for i in 0..SLOTS {
        if area[i * SLOT] == 255 || area[i * SLOT + 127] != 0 {
            return i;
        }
    }
    SLOTS
}

// Each byte from `from` on is 255.
pub fn all_erased(area: &[u8], from: usize) -> bool
    requires { from ≤ length area.now }
    ensures { result ≡ erased (drop from area.now) }
{
    area[from..].iter().all(|&b| b == 255)
}

// The area's shape, and how many whole records it has.
#[tactic(auto, using(crate::proofs::Reading::count_le, crate::proofs::Reading::look_full, crate::proofs::Reading::look_clean, crate::proofs::Reading::look_bad, crate::proofs::Reading::look_torn, crate::proofs::Reading::look_bad_2))]
pub fn look(area: &[u8; AREA]) -> Survey
    ensures { result ≡ survey area.now }
{
    let n = whole_count(area);
    if n == SLOTS {
        return Survey::Clean(SLOTS);
    }
    let at = n * SLOT;
    if area[at] == 255 {
        if all_erased(area, at) {
            return Survey::Clean(n);
        }
        return Survey::Bad;
    }
    if all_erased(area, at + SLOT) {
        return Survey::Torn(n);
    }
    Survey::Bad
}

// Every byte becomes 255.
pub fn erase(area: &mut [u8])
    ensures { area.new ≡ replicate (length area.old) 255 }
{
    area.fill(255);
}
