// AT lines: what a line says, as an order. `read` is for everyone else: it has a reader, which
// keeps the line and its place in it, read the name, move past it and read on. The reading itself
// is done by functions on line and place. Assumes nothing.
#![tactic(auto)]

ghost use Rattle.std.specs.Prelude.{◌≡◌, ◌+◌, ◌≤◌, ◌<◌, ◌^◌, [], length, drop, MatchOption, Some};
ghost use Rattle.at.specs.Order.{some_listed, order_of};
ghost use Rattle.at.specs.Lines.{starts as starts_with, ends as ends_with, flag_of};
ghost use Rattle.at.specs.Lines.{flags as flags_of, ints, read_line};
ghost use Rattle.at.specs.Lines.{word, name_of, arguments_of, ahead, behind};

use text::{Num, decimal};

// The order of a line.
#[derive(Clone, Copy)]
pub enum Order {
    Query,
    Nfm(u32),
    NfmStart(u32, u32),
    Intervals(Listed),
}

// Intervals: the first `count` of ten places, at least one. The places after them are 0. They are
// no Vec: there is no heap.
#[derive(Clone, Copy)]
pub struct Listed {
    pub count: usize,
    pub list: [u32; 10],
}

// The name that a line begins with.
#[derive(Clone, Copy)]
enum Name {
    Flags,
    Intervals,
}

// The line from a place on: nothing where it has ended.
fn rest(line: &[u8], at: usize) -> &[u8]
    ensures { result.now ≡ drop at line.now }
{
    line.get(at..).unwrap_or(&[])
}

// Whether the line goes on with `word` at a place.
#[tactic(auto, using(crate::proofs::LineLaws::starts_by))]
fn starts(line: &[u8], at: usize, word: &[u8]) -> bool
    ensures { result ≡ starts_with word.now (drop at line.now) }
{
    rest(line, at).starts_with(word)
}

// Whether `word` is all that the line has from a place on.
#[tactic(auto, using(crate::proofs::LineLaws::ends_by))]
fn ends(line: &[u8], at: usize, word: &[u8]) -> bool
    ensures { result ≡ ends_with word.now (drop at line.now) }
{
    rest(line, at) == word
}

// The flag at a place.
#[tactic(auto, using(crate::proofs::LineLaws::flag_end, crate::proofs::LineLaws::flag_0, crate::proofs::LineLaws::flag_1, crate::proofs::LineLaws::flag_2))]
fn flag(line: &[u8], at: usize) -> Option<u32>
    ensures { MatchOption result (flag_of (drop at line.now) ≡ 2) (λ f. (f ≡ flag_of (drop at line.now)) × (f ≤ 1)) }
{
    match line.get(at)? {
        b'0' => Some(0),
        b'1' => Some(1),
        _ => None,
    }
}

// What follows AT+NFM=.
fn flags(line: &[u8], at: usize) -> Option<Order>
    ensures { result ≡ order_of (flags_of (drop at line.now)) }
{
    if ends(line, at, b"?\r") {
        return Some(Order::Query);
    }
    let a = flag(line, at)?;
    if ends(line, at + 1, b"\r") {
        return Some(Order::Nfm(a));
    }
    if !starts(line, at + 1, b",") {
        return None;
    }
    let s = flag(line, at + 2)?;
    if ends(line, at + 3, b"\r") {
        Some(Order::NfmStart(a, s))
    } else {
        None
    }
}

// 1 to 10 intervals and the end of the line.
fn intervals(line: &[u8], at: usize) -> Option<Listed>
    ensures { result ≡ some_listed (ints 10 (drop at line.now) 1 []) }
{
    let mut list = [0u32; 10];
    let mut last = 1;
    let mut from = at;
    for n in 0..list.len() {
        let Num { value, next } = decimal(line, from, 65535)?;
        if value < last {
            return None;
        }
        list[n] = value as u32;
        if ends(line, next, b"\r") {
            return Some(Listed { count: n + 1, list });
        }
        if !starts(line, next, b",") {
            return None;
        }
        last = value;
        from = next + 1;
    }
    None
}

// Which name stands at a place.
#[tactic(auto, unfolding(crate::specs::Lines::name_of))]
fn name_at(line: &[u8], at: usize) -> Option<Name>
    ensures { result ≡ name_of (drop at line.now) }
{
    if starts(line, at, b"AT+NFM=") {
        Some(Name::Flags)
    } else if starts(line, at, b"AT+NFMCI=") {
        Some(Name::Intervals)
    } else {
        None
    }
}

// The place behind a name that stands at a place.
fn place_past(at: usize, name: Name) -> usize
    requires { at + length (word name) < 2 ^ 64 }
    ensures { result ≡ at + length (word name) }
{
    match name {
        Name::Flags => at + 7,
        Name::Intervals => at + 9,
    }
}

// What the arguments from a place on say, of the command with that name.
fn arguments_at(line: &[u8], at: usize, name: Name) -> Option<Order>
    ensures { result ≡ order_of (arguments_of name (drop at line.now)) }
{
    match name {
        Name::Flags => flags(line, at),
        Name::Intervals => Some(Order::Intervals(intervals(line, at)?)),
    }
}

// A line and the place in it from which it is read on.
#[derive(Clone, Copy)]
struct Reader<'a> {
    line: &'a [u8],
    at: usize,
}

impl<'a> Reader<'a> {
    // A reader at the front of the line.
    fn new(line: &'a [u8]) -> Reader<'a>
        ensures { (result.line ≡ line.entry) × (result.at ≡ 0) }
    {
        Reader { line, at: 0 }
    }

    // The name that stands at the reader's place.
    fn name(self) -> Option<Name>
        ensures { result ≡ name_of (ahead self.entry) }
    {
        name_at(self.line, self.at)
    }

    // The reader behind the name that it has read at its place.
    #[tactic(auto, using(crate::proofs::ReadLaws::behind_fits))]
    fn past(self, name: Name) -> Reader<'a>
        requires { name_of (ahead self) ≡ Some name }
        ensures { result ≡ behind name self.entry }
    {
        let at = place_past(self.at, name);
        Reader {
            line: self.line,
            at,
        }
    }

    // What the arguments from the reader's place on say, of the command with that name.
    fn arguments(self, name: Name) -> Option<Order>
        ensures { result ≡ order_of (arguments_of name (ahead self.entry)) }
    {
        arguments_at(self.line, self.at, name)
    }
}

// What an AT line says, its CR included. A line is at most 96 bytes, and no longer one is taken.
#[tactic(auto, using(crate::proofs::ReadLaws::read_none, crate::proofs::ReadLaws::read_named))]
pub fn read(line: &[u8]) -> Option<Order>
    ensures { result ≡ order_of (read_line line.now) }
{
    let reader = Reader::new(line);
    let name = reader.name()?;
    reader.past(name).arguments(name)
}
