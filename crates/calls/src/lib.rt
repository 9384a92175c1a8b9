// A timed call as data: document 01's letter and the numbers after it. Nothing here knows what a
// call does.
#![tactic(auto)]

ghost use Rattle.std.specs.Prelude.{◌≡◌, ◌≤◌, length};
ghost use Rattle.calls.specs.Letters.{how_many, event_of};

use rules::{Event, Outcome};

// How many numbers follow a letter, the time first; 0 for a byte that begins no timed call. It is
// no Option: as a number it is the length that a list has to have (in `event` and `Call`).
#[tactic(auto, unfolding(crate::specs::Letters::how_many))]
pub fn how_many(x: u8) -> usize
    ensures { result ≡ how_many x }
{
    match x {
        b'Q' | b'G' | b'S' => 2,
        b'J' => 5,
        b'D' | b'T' => 1,
        _ => 0,
    }
}

// What happens, by a letter and its numbers.
#[tactic(auto, unfolding(crate::specs::Letters::how_many, crate::specs::Letters::event_of))]
pub fn event(x: u8, v: &[u32]) -> Event
    requires { length v.now ≡ how_many x }
    ensures { result ≡ event_of x v.now }
{
    match x {
        b'Q' => Event::Ask(v[1]),
        b'G' => Event::Outcome(v[1], Outcome::Granted),
        b'S' => Event::Outcome(v[1], Outcome::Silent),
        b'J' => Event::Outcome(v[1], Outcome::Rejected(v[2], v[3], v[4])),
        b'D' => Event::Dropped,
        _ => Event::Tick,
    }
}

// A timed call as it is written: its letter, and the numbers behind it, the time first.
#[derive(Clone, Copy)]
pub struct Call<'a> {
    pub letter: u8,
    pub numbers: &'a [u32],
    ghost whole: { (length numbers.now ≡ how_many letter) × (1 ≤ length numbers.now) },
}

impl<'a> Call<'a> {
    ghost use Rattle.calls.specs.Written.{when, what};

    // The call of a letter and as many numbers as follow it.
    pub fn new(letter: u8, numbers: &'a [u32]) -> Self
        requires { (length numbers.now ≡ how_many letter) × (1 ≤ length numbers.now) }
        ensures { (result.letter ≡ letter) × (result.numbers.now ≡ numbers.now) }
    {
        Call { letter, numbers }
    }

    // When it happens.
    pub fn time(self) -> u32
        ensures { result ≡ when self.entry }
    {
        self.numbers[0]
    }

    // What happens.
    pub fn event(self) -> Event
        ensures { result ≡ what self.entry }
    {
        event(self.letter, self.numbers)
    }
}
