// turn: turns a state of version 1 that was kept in a file. It reads that state from standard
// input, 1,330 numbers of four bytes each, the lowest first, and writes the state of this version
// to standard output, 1,331 numbers. Where it is no good state of version 1, nothing is written
// there.
#![tactic(auto)]

ghost use Rattle.std.specs.Prelude.{◌≡◌};
ghost use Rattle.turn.specs.Turned.{written, turned_image};

use buffer::places;
use std::io;

// The bytes of what a state turns into: none where it is refused.
fn answer(bytes: &[u8]) -> Option<[u8; places::BYTES]>
    ensures { written result ≡ turned_image bytes.now }
{
    if bytes.len() != 4 * places::BASE {
        return None;
    }
    let mut old = [0; places::BASE];
    image::read(bytes, &mut old);
    let mut state = [0; places::SIZE];
    let refused = turning::turn(&old, &mut state).number != 0;
    if refused {
        return None;
    }
    let mut out = [0; places::BYTES];
    image::write(&state, &mut out);
    Some(out)
}

fn main(rt: HostRuntime) -> io::Result<()> {
    let mut bytes = [0; 4 * places::BASE + 1];
    let n = host::read_full(&mut rt.stdin(), &mut bytes)?;
    match answer(&bytes[..n]) {
        Some(out) => rt.stdout().write_all(&out),
        None => rt.stderr().write_all(b"turn: no good state of version 1\n"),
    }
}
