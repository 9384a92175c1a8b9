// listed: prints a journal, for `./dialchisel journal`. It reads the area from standard input,
// 65,536 bytes. On standard output each whole record is a trace line with its answer, slot by slot.
// What is no record is told on standard error, with the number of its slot. Of an area of another
// length nothing is printed.
#![tactic(auto)]

ghost use Rattle.std.specs.Prelude.{◌≡◌, ◌++◌, ◌+◌, ◌≤◌, ◌<◌, length, take};
ghost use Rattle.listed.specs.Slots.{torn_at, held, held_by, size_of, line_at, note_at, told, lines_of, notes_of};

use journal::AREA;
use std::io;

// The room for the notes: at most 24 bytes for each slot.
const NOTES: usize = 24 * 512;

// What a slot holds: 255s, a torn record, a whole one, whose line has so many bytes, or none of
// these.
#[derive(Clone, Copy)]
enum Slot {
    Blank,
    Torn,
    Line(usize),
    Bad,
}

// Whether a slot is torn.
#[tactic(auto, using(crate::proofs::Holding::not_begun, crate::proofs::Holding::is_closed, crate::proofs::Holding::is_open))]
fn is_torn(area: &[u8; AREA], i: usize) -> bool
    requires { i < 512 }
    ensures { result ≡ torn_at area.now i }
{
    let at = i * 128;
    if area[at] == 255 || area[at + 127] == 0 {
        return false;
    }
    journal::all_erased(area, at + 128)
}

// What slot i holds; the line of a record is written to the room.
fn look(area: &[u8; AREA], i: usize, out: &mut [u8; 128]) -> Slot
    requires { i < 512 }
    ensures out_after { held_by result out.new ≡ held area.now i }
    ensures result_bound { size_of result ≤ 128 }
{
    let rec = journal::record(area, i);
    if journal::all_erased(rec, 0) {
        return Slot::Blank;
    }
    if is_torn(area, i) {
        return Slot::Torn;
    }
    match listing::print(rec, out) {
        Some(n) => Slot::Line(n),
        None => Slot::Bad,
    }
}

// Writes the line of slot i, if it has one, from a place on, and answers the place after it.
fn line(area: &[u8; AREA], i: usize, out: &mut [u8; AREA], at: usize) -> usize
    requires { (i < 512) × (at + 128 ≤ 65536) }
    ensures out_after { take result out.new ≡ take at out.old ++ line_at area.now i }
    ensures upper_bound { result ≤ at + 128 }
{
    let mut room = [0; 128];
    match look(area, i, &mut room) {
        Slot::Line(n) => {
            listing::bytes(out, at, &room[..n]);
            at + n
        }
        Slot::Blank | Slot::Torn | Slot::Bad => at,
    }
}

// Writes the lines of an area, and answers how many bytes.
fn lines(area: &[u8; AREA], out: &mut [u8; AREA]) -> usize
    ensures out_after { take result out.new ≡ lines_of area.now }
    ensures upper_bound { result ≤ 65536 }
{
    let mut at = 0;
    for i in 0..512 {
        at = line(area, i, out, at);
    }
    at
}

// Writes what is told of slot i, at most 24 bytes.
fn tell(i: usize, end: &[u8], out: &mut [u8; NOTES], at: usize) -> usize
    requires i_bound { (i < 512) × (length end.now ≤ 9) }
    requires at_in_bounds { at + 24 ≤ 12288 }
    ensures out_after { take result out.new ≡ take at out.old ++ told i end.now }
    ensures upper_bound { result ≤ at + 24 }
{
    listing::bytes(out, at, b"slot ");
    let next = text::put(out, at + 5, i as u32);
    listing::bytes(out, next, end);
    next + end.len()
}

// Writes the note on slot i, if there is one.
fn note(area: &[u8; AREA], i: usize, out: &mut [u8; NOTES], at: usize) -> usize
    requires { (i < 512) × (at + 24 ≤ 12288) }
    ensures out_after { take result out.new ≡ take at out.old ++ note_at area.now i }
    ensures upper_bound { result ≤ at + 24 }
{
    let mut room = [0; 128];
    match look(area, i, &mut room) {
        Slot::Blank | Slot::Line(_) => at,
        Slot::Torn => tell(i, b" is torn\n", out, at),
        Slot::Bad => tell(i, b" is bad\n", out, at),
    }
}

// Writes the notes on an area, and answers how many bytes.
fn notes(area: &[u8; AREA], out: &mut [u8; NOTES]) -> usize
    ensures out_after { take result out.new ≡ notes_of area.now }
    ensures upper_bound { result ≤ 12288 }
{
    let mut at = 0;
    for i in 0..512 {
        at = note(area, i, out, at);
    }
    at
}

fn main(rt: HostRuntime) -> io::Result<()> {
    let mut bytes = [0; AREA + 1];
    let n = host::read_full(&mut rt.stdin(), &mut bytes)?;
    let Some(area) = bytes[..n].as_array() else {
        return rt.stderr().write_all(b"journal: an area has 65536 bytes\n");
    };
    let mut out = [0; AREA];
    let told = lines(area, &mut out);
    if rt.stdout().write_all(&out[..told]).is_err() {
        return rt
            .stderr()
            .write_all(b"journal: the lines could not be written\n");
    }
    let mut wrong = [0; NOTES];
    let more = notes(area, &mut wrong);
    rt.stderr().write_all(&wrong[..more])
}
