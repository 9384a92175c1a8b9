// Judges damaged buffers, for the outside test of the table. Standard input is three whole buffers
// of 1,400 numbers, 32 bits each, little end first, and then records of 40 bytes: which of the
// three, how long a buffer to judge, and six places with a new number for each. For each record it
// writes 1 for a good buffer and 0 for a bad one. A place of 1,400 or more is passed over.
#![tactic(auto)]

ghost use Rattle.std.specs.Prelude.{◌≡◌, ◌+◌, ◌*◌, ◌≤◌, length};

use std::io;

// The numbers of a whole buffer of the input, and its bytes.
const PLACES: usize = 1400;

const BYTES: usize = 4 * PLACES;

// The number in the two bytes from a place on.
fn small(b: &[u8], at: usize) -> u16
    requires { at + 2 ≤ length b.now }
{
    u16::from_le_bytes([b[at], b[at + 1]])
}

// The numbers of a buffer's bytes.
fn numbers(bytes: &[u8; BYTES]) -> [u32; PLACES] {
    let mut s = [0; PLACES];
    for (place, four) in s.iter_mut().zip(bytes.as_chunks().0) {
        *place = u32::from_le_bytes(*four);
    }
    s
}

// Stores the six numbers of a record, each where there is such a place.
fn store(s: &mut [u32; PLACES], edits: &[u8; 40]) {
    for &[low, high, a, b, c, d] in edits[4..].as_chunks::<6>().0 {
        if let Some(place) = s.get_mut(u16::from_le_bytes([low, high]) as usize) {
            *place = u32::from_le_bytes([a, b, c, d]);
        }
    }
}

// The byte to write for the first n places of s.
fn judged(s: &[u32; PLACES], n: usize) -> u8 {
    match s.get(..n) {
        Some(front) if inspect::is_good(front) => b'1',
        Some(_) => b'0',
        None => b'?',
    }
}

// One record.
fn case(bases: &[[u8; BYTES]], edits: &[u8; 40]) -> u8 {
    let Some(base) = bases.get(usize::from(small(edits, 0))) else {
        return b'?';
    };
    let mut s = numbers(base);
    store(&mut s, edits);
    judged(&s, usize::from(small(edits, 2)))
}

fn main(rt: HostRuntime) -> io::Result<()> {
    let mut input = [0; 3 * BYTES];
    host::read_full(&mut rt.stdin(), &mut input)?;
    let (bases, _) = input.as_chunks();
    let mut record = [0; 40];
    for _ in 0..1000000 {
        let n = host::read_full(&mut rt.stdin(), &mut record)?;
        if n < 40 {
            return Ok(());
        }
        rt.write_all(&[case(bases, &record), b'\n'])?;
    }
    Ok(())
}
