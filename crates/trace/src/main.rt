// The trace program: reads trace lines from standard input and writes the answer to each to
// standard output. Before any `O` the buffer is all 0.
//
// A line may stand across reads; the last one may lack its LF. What waits is written before the
// next read, so that one who types lines sees the answers. The memory used does not grow with the
// input. With `--state FILE` the buffer after the last line is written to FILE: 1,331 numbers of
// four bytes, the lowest first.
#![tactic(auto)]

ghost use Rattle.std.specs.Prelude.{◌+◌, ◌≤◌, ◌≡◌, not, ◌&&◌, length, eqb};
ghost use Rattle.std.proofs.Math.Seq.{slice};
ghost use Rattle.answering.specs.Known.{Known};
ghost use Rattle.answering.specs.Cut.{Answered, Turned, SomeTurned, Whole};

use answering::{Carry, Left, Room};
use buffer::places;
use buffer::places::Buffer;
use std::env::Env;
use std::fs::{File, OpenOptions};
use std::io::{Read, Write};
use std::{fs, io};

// Cuts the whole input into lines, answers each, and writes the answers out. The loop is a `while`:
// a turn goes on by what `cut` has passed.
fn all(
    rt: &HostRuntime,
    state: &mut [u32],
    buf: &[u8],
    end: usize,
    out: &mut Room,
    c: Carry,
) -> Left
    requires known { Known c.known state.old }
    requires held_le_end { (c.held ≤ end) × (end ≤ length buf.now) }
    ensures start_bound { (result.«start» ≤ result.place) × ((result.place ≤ end) × Known result.known state.new) }
    ensures answered { Answered buf.now end c.skip c.held state.old result state.new }
{
    let mut left = Left {
        start: 0,
        place: c.held,
        skip: c.skip,
        fill: 0,
        known: c.known,
        sent: true,
    };
    while left.place < end && left.sent {
        let cut = answering::cut(state, buf, end, out, left);
        let sent = rt.stdout().write_all(&out[..cut.fill]).is_ok();
        left = Left {
            fill: 0,
            sent,
            ..cut
        };
    }
    left
}

// Reads once; 0 at the end of the input, as of any read, and where it cannot be read.
fn take(rt: &HostRuntime, buf: &mut [u8]) -> usize
    ensures { result ≤ length buf.old }
{
    rt.stdin().read(buf).unwrap_or(0)
}

// Answers the lines of n bytes that came after those that are held; where none came the input has
// ended. It goes on while bytes come and all writes go well.
fn arrived(
    rt: &HostRuntime,
    state: &mut [u32],
    buf: &mut [u8],
    n: usize,
    out: &mut Room,
    c: Carry,
) -> Carry
    requires known { Known c.known state.old }
    requires n_in_bounds { c.held + n ≤ length buf.old }
    ensures held_bound { (result.held ≤ 256) × Known result.known state.new }
    ensures more_value { result.more ≡ (not (eqb n 0) && result.sent) }
    ensures turned { Turned c.skip c.held buf.old (slice c.held (c.held + n) buf.old) state.old result buf.new state.new }
{
    let ended = n == 0;
    if ended {
        let fill = answering::finish(state, buf, out, c);
        let sent = rt.stdout().write_all(&out[..fill]).is_ok();
        return Carry {
            held: 0,
            skip: false,
            known: false,
            more: false,
            sent,
        };
    }
    let left = all(rt, state, buf, c.held + n, out, c);
    answering::keep(buf, left)
}

// Reads once, and answers the lines that came.
fn turn(rt: &HostRuntime, state: &mut [u32], buf: &mut Room, out: &mut Room, c: Carry) -> Carry
    requires known { Known c.known state.old }
    requires held_bound { c.held ≤ 256 }
    ensures held_bound_2 { (result.held ≤ 256) × Known result.known state.new }
    ensures some_turned { SomeTurned c.skip c.held buf.old state.old result buf.new state.new }
{
    let n = take(rt, &mut buf[c.held..]);
    arrived(rt, state, buf, n, out, c)
}

// Answers the whole input, one read after the other; whether all of it was answered and written. A
// proved loop has to end, and nothing says that the input does: so it counts its turns, up to a
// number that no run uses up.
fn run(rt: &HostRuntime, state: &mut [u32], buf: &mut Room, out: &mut Room) -> bool
    ensures { Whole result state.old state.new }
{
    let mut c = Carry {
        held: 0,
        skip: false,
        known: false,
        more: true,
        sent: true,
    };
    for _ in 0..u64::MAX {
        if !c.more {
            break;
        }
        c = turn(rt, state, buf, out, c);
    }
    !c.more && c.sent
}

// The file could not be written: it is told why, and what was begun is taken away.
fn spoiled(rt: &HostRuntime, name: &[u8], why: io::Error) {
    host::fail(&mut rt.stderr(), name, why);
    if let Ok(path) = host::name_of(name) {
        let _ = fs::remove_file(rt, path);
    }
}

// A new file of that name, to be written; there is none so far.
fn create(rt: &HostRuntime, name: &[u8]) -> io::Result<File> {
    let path = host::name_of(name)?;
    OpenOptions::new()
        .write(true)
        .create_new(true)
        .open(rt, path)
}

// Writes the buffer to an open file, and sees it on the disk.
fn fill(mut file: File, state: &Buffer) -> io::Result<()> {
    let mut bytes = [0u8; places::BYTES];
    image::write(state, &mut bytes);
    file.write_all(&bytes)?;
    file.sync_all()
}

// The new file gets the name of the first n bytes of its own.
fn give(rt: &HostRuntime, name: &[u8], n: usize) -> io::Result<()>
    requires { n ≤ length name.now }
{
    fs::rename(rt, host::name_of(name)?, host::name_of(&name[..n])?)
}

// Writes the buffer to a new file, and then gives it the name of the first n bytes of its own.
fn store(rt: &HostRuntime, state: &Buffer, name: &[u8], n: usize)
    requires { n ≤ length name.now }
{
    let file = match create(rt, name) {
        Ok(file) => file,
        Err(why) => {
            host::fail(&mut rt.stderr(), name, why);
            return;
        }
    };
    if let Err(why) = fill(file, state) {
        spoiled(rt, name, why);
        return;
    }
    if let Err(why) = give(rt, name, n) {
        spoiled(rt, name, why);
    }
}

// Writes the buffer to the file that argument 2 names, by way of a new one beside it, FILE.new.
fn save(rt: &HostRuntime, state: &Buffer) {
    let mut name = [0u8; 4096];
    let n = match rt.arg(2, &mut name) {
        Ok(n) => n,
        Err(why) => {
            host::fail(&mut rt.stderr(), b"trace: FILE", host::no_arg(why));
            return;
        }
    };
    let Some(m) = files::beside(&mut name, n) else {
        let _ = rt
            .stderr()
            .write_all(b"trace: FILE: the name is too long\n");
        return;
    };
    store(rt, state, &name[..m], n);
}

// Whether argument 1 is `--state`, with one more after it.
fn saves(rt: &impl Env) -> bool {
    let mut word = [0u8; 7];
    let named = match rt.arg(1, &mut word) {
        Ok(n) => &word[..n] == b"--state".as_slice(),
        Err(_) => false,
    };
    named && host::has_arg(rt, 2) && !host::has_arg(rt, 3)
}

fn main(rt: HostRuntime) {
    let keep = saves(&rt);
    if !keep && host::has_arg(&rt, 1) {
        let _ = rt.stderr().write_all(b"trace [--state FILE]\n");
        return;
    }
    let mut state = [0u32; places::SIZE];
    let mut buf = [0u8; 65536];
    let mut out = [0u8; 65536];
    let whole = run(&rt, &mut state, &mut buf, &mut out);
    if !keep {
        return;
    }
    if !whole {
        let _ = rt.stderr().write_all(
            b"trace: not all answers were written, and FILE is left as it was\n",
        );
        return;
    }
    save(&rt, &state);
}
