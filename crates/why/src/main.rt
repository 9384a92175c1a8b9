// why STATE TIME REQUEST: says why the gate would say no to a request at a time, from a state that
// is kept in a file: 1,331 numbers of four bytes each, the lowest first. It prints the first rule
// that stands and how many there are, then a line for each: the back-off's number, or a limit's
// with the permit time that has to leave the hour. A refusal is its number and 0.
#![tactic(auto)]

ghost use Rattle.std.specs.Prelude.{◌≡◌, ◌++◌, ◌+◌, ◌≤◌, length, take, IfOk, IfSome};
ghost use Rattle.std.proofs.lemmas.List.Edits.{sets};
ghost use Rattle.text.specs.Number.{num, part_of, value_of};
ghost use Rattle.rules.specs.Tables.{rules};
ghost use Rattle.why.specs.Report.{line_if, lines_for, report, report_on, highest, whole_of};

use buffer::places;
use reasons::said::Why;
use std::env::Env;
use std::io::Read;
use std::rt::Files;
use std::{fs, io};
use text::Num;

// Writes the line of a rule, if it stands, from a place on, and answers the place after it.
fn line(out: &mut [u8], at: usize, stands: bool, n: u32, time: u32) -> usize
    requires { at + 22 ≤ length out.old }
    ensures out_after { (out.new ≡ sets out.old at (line_if stands n time)) × (result ≡ at + length (line_if stands n time)) }
    ensures upper_bound { result ≤ at + 22 }
{
    if !stands {
        return at;
    }
    let back_off = n == 10;
    if back_off {
        let next = text::put(out, at, n);
        out[next] = b'\n';
        return next + 1;
    }
    text::put_two(out, at, n, time)
}

// Writes a line for each rule whose bit is set.
fn lines(out: &mut [u8], at: usize, bits: u32, times: [u32; 8]) -> usize
    requires { at + 176 ≤ length out.old }
    ensures out_after { take result out.new ≡ take at out.old ++ lines_for bits rules times }
    ensures upper_bound { result ≤ at + 176 }
{
    let mut next = at;
    let mut left = bits;
    for (i, &n) in reasons::NUMBERS.iter().enumerate() {
        next = line(out, next, left % 2 == 1, n, times[i]);
        left /= 2;
    }
    next
}

// Writes what is said of a request, and answers how many bytes.
fn tell(out: &mut [u8], w: Why) -> usize
    requires { 198 ≤ length out.old }
    ensures out_after { take result out.new ≡ report w }
    ensures upper_bound { result ≤ 198 }
{
    if w.refusal != 0 {
        return text::put_two(out, 0, w.refusal, 0);
    }
    let at = text::put_two(out, 0, w.first, w.count);
    lines(out, at, w.bits, w.times)
}

// The same from the bytes of the file.
fn answer(bytes: &[u8], time: u32, kind: u32, out: &mut [u8]) -> usize
    requires { 198 ≤ length out.old }
    ensures out_after { take result out.new ≡ report_on bytes.now time kind }
    ensures upper_bound { result ≤ 198 }
{
    if bytes.len() != places::BYTES {
        return text::put_two(out, 0, 1, 0);
    }
    let mut state = [0u32; places::SIZE];
    image::read(bytes, &mut state);
    tell(out, reasons::why(&state, time, kind))
}

// A word that is a decimal up to 4,294,967,295, and nothing more.
fn whole(word: &[u8]) -> Option<Num>
    ensures { (part_of word.now result ≡ whole_of (num highest word.now)) × (value_of result ≤ highest) }
{
    let found = text::decimal(word, 0, 4294967295)?;
    if found.next < word.len() {
        return None;
    }
    Some(found)
}

// Argument i as such a number.
fn number(rt: &impl Env, i: usize) -> Option<u32> {
    let mut word = [0u8; 16];
    let n = rt.arg(i, &mut word).ok()?;
    Some(whole(&word[..n])?.value as u32)
}

// The first bytes of a file, as many as there is room for. A file that goes on has to be readable
// there too.
fn front(rt: &impl Files, name: &[u8], room: &mut [u8]) -> io::Result<usize>
    ensures { IfOk result (λ n. n ≤ length room.new) }
{
    let mut file = fs::open(rt, host::name_of(name)?)?;
    let got = host::read_full(&mut file, room)?;
    let mut more = [0u8; 1];
    file.read(&mut more)?;
    Ok(got)
}

// The first bytes of the file that argument 1 names, as many as there is room for; or it is told
// why not.
fn load(rt: &HostRuntime, room: &mut [u8]) -> Option<usize>
    ensures { IfSome result (λ n. n ≤ length room.new) }
{
    let mut path = [0u8; 4096];
    let n = match rt.arg(1, &mut path) {
        Ok(n) => n,
        Err(why) => {
            host::fail(&mut rt.stderr(), b"why: STATE", host::no_arg(why));
            return None;
        }
    };
    match front(rt, &path[..n], room) {
        Ok(got) => Some(got),
        Err(why) => {
            host::fail(&mut rt.stderr(), &path[..n], why);
            None
        }
    }
}

// Reads the state, and prints what stands against request `kind` at `time`.
fn say(rt: &HostRuntime, time: u32, kind: u32) -> io::Result<()> {
    let mut bytes = [0u8; places::BYTES + 1];
    let Some(n) = load(rt, &mut bytes) else {
        return Ok(());
    };
    let mut out = [0u8; 198];
    let told = answer(&bytes[..n], time, kind, &mut out);
    rt.stdout().write_all(&out[..told])
}

fn main(rt: HostRuntime) -> io::Result<()> {
    if !host::has_arg(&rt, 3) || host::has_arg(&rt, 4) {
        return rt.stderr().write_all(b"why STATE TIME REQUEST\n");
    }
    let Some(time) = number(&rt, 2) else {
        return rt
            .stderr()
            .write_all(b"why: TIME is no decimal up to 4294967295\n");
    };
    let Some(kind) = number(&rt, 3) else {
        return rt
            .stderr()
            .write_all(b"why: REQUEST is no decimal up to 4294967295\n");
    };
    say(&rt, time, kind)
}
