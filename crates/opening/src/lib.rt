// Opening: a new buffer of what is given, or a refusal and the buffer as it was. It needs no
// earlier time and no good buffer.
#![tactic(auto)]

ghost use Rattle.std.specs.Prelude.{◌≡◌, MatchOption, [], ◌∷◌, ◌+◌, ◌/◌, ◌%◌, ◌^◌, ◌≤◌, length};
ghost use Rattle.rules.specs.Tables.{scheduled};
ghost use Rattle.buffer.specs.Places.{SIZE, CURRENT, LETTERS, INTERVALS, PARAMETERS, HOUSE, RATES};
ghost use Rattle.buffer.specs.Segments.{pad, paste};
ghost use Rattle.buffer.specs.Layout.{letters, lay};
ghost use Rattle.opening.specs.Open.{order, settings, begun, OpenSays};

use buffer::places as at;
use buffer::places::Buffer;
use inspect::scan::rising;
use refusals::{DONE, Refusal};
use rules::Answer;

// Base intervals: 1 to 10 of them, 1 to 65,535 s, none below the one before.
fn schedule(l: &[u32]) -> bool
    ensures { result ≡ scheduled l.now }
{
    ((1 <= l.len()) & (l.len() <= 10)) & rising(l, 1, 65535)
}

// The settings that an opening is given: IMSI, intervals, NFM, RPM, A1, S1.
#[derive(Clone, Copy)]
struct Settings<'a> {
    imsi: u64,
    intervals: &'a [u32],
    nfm: u32,
    rpm: u32,
    a1: u32,
    s1: u32,
}

impl Settings<'_> {
    // They are in range; time and files are not looked at.
    #[tactic(auto, unfolding(crate::specs::Open::settings))]
    fn in_order(self) -> bool
        ensures { result ≡ settings (order 0 self.entry.imsi self.entry.intervals.now self.entry.nfm self.entry.rpm self.entry.a1 self.entry.s1 [] [] [] [] []) }
    {
        (self.imsi <= rules::HIGHEST_IMSI)
            & schedule(self.intervals)
            & (self.nfm <= 1)
            & (self.rpm <= 1)
            & (self.a1 <= 255)
            & (self.s1 <= 255)
    }
}

// Of parts of the files that rule the six parameters, three leak rates and six counters; none where
// a part is not so long, since a file is bad.
fn ruling<'a>(
    p: &'a [u8],
    r: &'a [u8],
    k: &'a [u8],
) -> Option<(&'a [u8; 6], &'a [u8; 3], &'a [u8; 6])>
    ensures { MatchOption result (((length p.now ≡ 6) × ((length r.now ≡ 3) × (length k.now ≡ 6))) → ⊥)
        (λ f. ((f.0.now ≡ p.now) × ((f.1.now ≡ r.now) × (f.2.now ≡ k.now))) × ((length p.now ≡ 6) × ((length r.now ≡ 3) × (length k.now ≡ 6)))) }
{
    Some((p.as_array()?, r.as_array()?, k.as_array()?))
}

// Places 0-9: letters, version, times, IMSI, NFM, Start Timer, RPM, and how many intervals there are.
fn head(s: &mut Buffer, time: u32, given: Settings)
    requires imsi_bound { given.imsi ≤ 999999999999999 }
    requires few { length given.intervals.now ≤ 10 }
    ensures { s.new ≡ paste s.old LETTERS (letters ∷ CURRENT ∷ time ∷ time ∷ given.entry.imsi / 2 ^ 32 ∷ given.entry.imsi % 2 ^ 32 ∷ given.entry.nfm ∷ 0 ∷ given.entry.rpm ∷ length given.entry.intervals.now ∷ []) }
{
    s[at::LETTERS] = 0x00575250;
    s[at::VERSION] = at::CURRENT;
    s[at::OPENED] = time;
    s[at::LAST] = time;
    s[at::QUOTIENT] = (given.imsi / 4294967296) as u32;
    s[at::REMAINDER] = (given.imsi % 4294967296) as u32;
    s[at::NFM] = given.nfm;
    s[at::START] = 0;
    s[at::RPM] = given.rpm;
    s[at::COUNT] = given.intervals.len() as u32;
}

// Places 10-19: the intervals, and 0 where there are none.
pub fn intervals(s: &mut Buffer, l: &[u32])
    requires { length l.now ≤ 10 }
    ensures { s.new ≡ paste s.old INTERVALS (pad 10 l.now) }
{
    s[at::INTERVALS..at::PARAMETERS].fill(0);
    s[at::INTERVALS..at::INTERVALS + l.len()].copy_from_slice(l);
}

// Bytes of a file, to the places from a on.
fn load(s: &mut Buffer, a: usize, p: &[u8])
    requires { a + length p.now ≤ SIZE }
    ensures { s.new ≡ paste s.old a p.now }
{
    for (i, &b) in p.iter().enumerate() {
        s[a + i] = u32::from(b);
    }
}

// Places 26, 27: the house limits.
fn house(s: &mut Buffer, a1: u32, s1: u32)
    ensures { s.new ≡ paste s.old HOUSE (a1 ∷ s1 ∷ []) }
{
    s[at::HOUSE] = a1;
    s[at::HOUSE + 1] = s1;
}

// Places 20-30: the six parameters, the house limits and the three leak rates.
fn limits(s: &mut Buffer, parameters: &[u8; 6], a1: u32, s1: u32, leaks: &[u8; 3])
    ensures { s.new ≡ paste (paste (paste s.old PARAMETERS parameters.now) HOUSE (a1 ∷ s1 ∷ [])) RATES leaks.now }
{
    load(s, at::PARAMETERS, parameters);
    house(s, a1, s1);
    load(s, at::RATES, leaks);
}

// A new buffer, of settings that are in order and the bytes that rule.
fn fill(
    s: &mut Buffer,
    time: u32,
    given: Settings,
    parameters: &[u8; 6],
    leaks: &[u8; 3],
    counters: &[u8; 6],
)
    requires imsi_bound { given.imsi ≤ 999999999999999 }
    requires few { length given.intervals.now ≤ 10 }
    ensures { s.new ≡ lay (begun (order time given.entry.imsi given.entry.intervals.now given.entry.nfm given.entry.rpm given.entry.a1 given.entry.s1 [] [] [] [] []) parameters.now leaks.now counters.now) }
{
    s.fill(0);
    head(s, time, given);
    intervals(s, given.intervals);
    limits(s, parameters, given.a1, given.s1, leaks);
    load(s, at::COUNTERS, counters);
}

// Opening: the settings, the card's three files, each of which may be absent, and the module's own
// two, which rule where the card has none. The C interface has the parameters one by one.
pub fn open<'a, 'b>(
    s: &mut [u32],
    time: u32,
    imsi: u64,
    intervals: &[u32],
    nfm: u32,
    rpm: u32,
    a1: u32,
    s1: u32,
    parameters: &'a [u8],
    leaks: &'b [u8],
    counters: &[u8],
    own_parameters: &'a [u8],
    own_leaks: &'b [u8],
) -> Answer
    ensures { OpenSays s.old (order time imsi intervals.now nfm rpm a1 s1 parameters.now leaks.now counters.now own_parameters.now own_leaks.now) result s.new }
{
    let Some(s) = s.as_mut_array::<{ at::SIZE }>() else {
        return Refusal::Buffer.into();
    };
    let given = Settings {
        imsi,
        intervals,
        nfm,
        rpm,
        a1,
        s1,
    };
    if !given.in_order() {
        return Refusal::Range.into();
    }
    let zeros = [0u8; 32];
    let p = card::parameters(parameters, own_parameters);
    let r = card::rates(leaks, own_leaks);
    let k = card::counters(counters, &zeros);
    let Some((p, r, k)) = ruling(p, r, k) else {
        return Refusal::Range.into();
    };
    if rules::LATEST < time {
        return Refusal::Time.into();
    }
    fill(s, time, given, p, r, k);
    DONE
}
