// The card's files: whether one is as document 01 has it, which file rules where the card may lack
// it, and the counter file written. Nothing here knows the buffer.
#![tactic(auto)]

ghost use Rattle.std.specs.Prelude.{◌≡◌, cond, ◌≤◌};
ghost use Rattle.card.specs.Card.{blank, file, absent, good_or_absent, IsPart, written};

// Every byte is 0.
fn is_blank(p: &[u8]) -> bool
    ensures { result ≡ blank p.now }
{
    p.iter().all(|&b| b == 0)
}

// A file of so many bytes, the first n used and every other 0.
fn is_file(p: &[u8], long: usize, n: usize) -> bool
    requires { n ≤ long }
    ensures { result ≡ file long n p.now }
{
    p.len() == long && is_blank(&p[n..])
}

// A file that the card may lack: absent, or a file of so many bytes, the first n used and every
// other 0.
#[tactic(auto, unfolding(crate::specs::Card::absent, crate::specs::Card::good_or_absent))]
fn is_good_or_absent(p: &[u8], long: usize, n: usize) -> bool
    requires { n ≤ long }
    ensures { result ≡ good_or_absent long n p.now }
{
    p.is_empty() || is_file(p, long, n)
}

// The file that rules: the card's, or the module's own where the card has none.
#[tactic(auto, unfolding(crate::specs::Card::absent))]
fn ruling_file<'a>(card: &'a [u8], own: &'a [u8]) -> &'a [u8]
    ensures { result ≡ cond (absent card.now) own.entry card.entry }
{
    if card.is_empty() { own } else { card }
}

// The first n bytes of the file that rules, as a part of it; an empty part where either file is
// bad, the module's used or not. It is no Option, since `IsPart`, which `parameters` and `rates` of
// the gate promise, has the empty part. The lengths are numbers and no const parameters: each is
// compared with a length that is read.
fn part<'a>(card: &'a [u8], own: &'a [u8], long: usize, n: usize) -> &'a [u8]
    requires { n ≤ long }
    ensures { IsPart long n card.entry own.entry result }
{
    let file = ruling_file(card, own);
    if is_good_or_absent(card, long, n) && is_file(own, long, n) {
        &file[..n]
    } else {
        &file[..0]
    }
}

// The six bytes N1, T1, F1, F2, F3, F4 that rule: a part of the card's parameter file, or of the
// module's own where the card has none.
pub fn parameters<'a>(card: &'a [u8], own: &'a [u8]) -> &'a [u8]
    ensures { IsPart 32 6 card.entry own.entry result }
{
    part(card, own, 32, 6)
}

// The three leak rates that rule, in the same way.
pub fn rates<'a>(card: &'a [u8], own: &'a [u8]) -> &'a [u8]
    ensures { IsPart 6 3 card.entry own.entry result }
{
    part(card, own, 6, 3)
}

// The six counters, in the same way; for a card that has none the caller lends zeros.
pub fn counters<'a>(card: &'a [u8], zeros: &'a [u8]) -> &'a [u8]
    ensures { IsPart 32 6 card.entry zeros.entry result }
{
    part(card, zeros, 32, 6)
}

// RTC10's values as a parameter file, for a module that has no others to go by.
pub const RTC10: [u8; 32] = [
    // N1, and T1: 60 minutes, in units of 6
    20, 10,
    // F1 to F4
    60, 30, 60, 30,
    // reserved
    0, 0, 0, 0, 0, 0, 0, 0, 0, 0, 0, 0, 0, 0, 0, 0, 0, 0, 0, 0, 0, 0, 0, 0, 0, 0,
];

// The six counters, as bytes.
pub type Counters = [u8; 6];

// Writes the counter file: the six counters, and 26 bytes of 0.
pub fn write(out: &mut [u8; 32], c: Counters)
    ensures { out.new ≡ written c }
{
    out.fill(0);
    out[..6].copy_from_slice(&c);
}
