// What the programs ask of the machine that they run on: a whole read, how many words they were
// started with, and a line on standard error that says why something failed.
#![tactic(auto)]

ghost use Rattle.std.specs.Prelude.{◌≡◌, ◌≤◌, ◌<◌, ◌↔◌, length, take, IfOk, IsOk, OnOk, Some};
ghost use Rattle.std.specs.Str.{IsUtf8};
ghost use Rattle.std.specs.Io.{ReadsAtMost};
ghost use Rattle.std.specs.Io.KnownBytes.{Consumes, IsAtEnd};
ghost use Rattle.std.specs.IoError.{raw_os_error};
ghost use Rattle.host.specs.Told.{error_of, Tells};

use std::env::{Env, FillError};
use std::io;
use std::io::{Read, Write};

// Reads until the room is full or the input ends, and answers how many bytes stand at its front.
// The loop is a `while`: a turn goes on by what a read brought.
pub fn read_full<R: Read>(from: &mut R, room: &mut [u8]) -> io::Result<usize>
    ensures bound { ReadsAtMost result room.new }
    ensures bytes { IfOk result (λ n. Consumes (R.remaining from.old) (R.remaining from.new) (take n room.new)) }
    ensures end { IfOk result (λ n. n < length room.new → IsAtEnd (R.remaining from.new)) }
{
    let mut at = 0;
    while at < room.len() {
        let n = from.read(&mut room[at..])?;
        if n == 0 {
            break;
        }
        at += n;
    }
    Ok(at)
}

// Whether the program was started with a word i. Word 0 is its own name.
pub fn has_arg<E: Env>(env: &E, i: usize) -> bool {
    let mut room = [0; 1];
    !matches!(env.arg(i, &mut room), Err(FillError::NotPresent))
}

// The system's numbers of two errors: of what makes no sense, and of a name that is too long.
const EINVAL: i32 = 22;

const ENAMETOOLONG: i32 = 36;

// The error of a word that is missing, or longer than the room for it.
pub fn no_arg(why: FillError) -> io::Error
    ensures { raw_os_error result ≡ Some (error_of why) }
{
    match why {
        FillError::NotPresent => io::Error::from_raw_os_error(EINVAL),
        FillError::TooLong => io::Error::from_raw_os_error(ENAMETOOLONG),
    }
}

// The name of a file as std takes it, which is text in UTF-8.
pub fn name_of(bytes: &[u8]) -> io::Result<&str>
    ensures same { IfOk result (λ text. text.now ≡ bytes.now) }
    ensures utf8 { IsOk result ↔ IsUtf8 bytes.now }
{
    std::str::from_utf8(bytes).map_err(|_| io::Error::new(
        io::ErrorKind::InvalidFilename,
        "the name is not UTF-8",
    ))
}

// Writes a line: what failed, a colon and why, in the system's words. Where a part of it cannot be
// written the others are, and the answer is the first error.
pub fn tell<W: Write>(to: &mut W, what: &[u8], why: io::Error) -> io::Result<()>
    ensures { OnOk result (Tells (W.contents to.old) (W.contents to.new) what.now) }
{
    let mut room = [0; 300];
    let n = words(&why, &mut room);
    let named = to.write_all(what);
    let parted = to.write_all(b": ");
    let told = to.write_all(without_number(&room[..n]));
    let ended = to.write_all(b"\n");
    named.and(parted).and(told).and(ended)
}

// The same, where there is nobody to tell that the line could not be written.
pub fn fail<W: Write>(to: &mut W, what: &[u8], why: io::Error) {
    let _ = tell(to, what, why);
}

// Puts the words of an error at the front of the room, as far as there is room, and answers how
// many bytes they are.
fn words(why: &io::Error, room: &mut [u8]) -> usize
    ensures { result ≤ length room.new }
{
    let most = room.len();
    let mut rest = &mut room[..];
    let _ = write!(rest, "{why}");
    most.saturating_sub(rest.len())
}

// The words without the number of the system's error, which std puts behind them, as in
// ` (os error 2)`.
fn without_number(words: &[u8]) -> &[u8] {
    match std::str::from_utf8(words) {
        Ok(text) => match text.rsplit_once(" (os error ") {
            Some((front, _)) => front.as_bytes(),
            None => words,
        },
        Err(_) => words,
    }
}
