// The lines of an input, one after the other, and their answers: bytes that stand in one room are
// cut at each LF, and what each line is answered goes to another room. Nothing is read or written
// here.
#![tactic(auto)]

ghost use Rattle.std.specs.Prelude.{◌+◌, ◌-◌, ◌≤◌, ◌<◌, ◌≡◌, [], ◌++◌, length, take};
ghost use Rattle.std.proofs.Math.Seq.{slice};
ghost use Rattle.answering.specs.Known.{Known};
ghost use Rattle.answering.specs.Through.{line_prints, line_leaves, prints, leaves};
ghost use Rattle.answering.specs.Cut.{Cut, Kept};

// A room for bytes: of the input, or of the output that waits.
pub type Room = [u8; 65536];

// What is kept from one read to the next: how many bytes of an unfinished line stand at the front
// of the input, whether they are of a line that is too long and is passed over to its LF, whether
// the buffer is known to be good, whether to read on, and whether all writes went well. What is
// known of the buffer is a clause, `Known`, and no type: the buffer is lent anew with each read.
#[derive(Clone, Copy)]
pub struct Carry {
    pub held: usize,
    pub skip: bool,
    pub known: bool,
    pub more: bool,
    pub sent: bool,
}

// How far the input is cut into lines: where the line that has begun starts, the place of the next
// byte, whether the line is too long and was passed over, how many bytes of output wait, whether
// the buffer is known to be good, and whether all writes went well.
#[derive(Clone, Copy)]
pub struct Left {
    pub start: usize,
    pub place: usize,
    pub skip: bool,
    pub fill: usize,
    pub known: bool,
    pub sent: bool,
}

// After a line: how many bytes of output wait, and whether the buffer is known to be good.
#[derive(Clone, Copy)]
struct Told {
    fill: usize,
    known: bool,
}

// Answers a line, or one that is too long.
fn one(state: &mut [u32], line: &[u8], out: &mut [u8], fill: usize, skip: bool, known: bool) -> Told
    requires known { Known known state.old }
    requires fill_in_bounds { fill + 22 ≤ length out.old }
    ensures fill_bound { (result.«fill» ≤ fill + 22) × Known result.known state.new }
    ensures out_after { take result.«fill» out.new ≡ take fill out.old ++ line_prints skip line.now state.old }
    ensures state_after { state.new ≡ line_leaves skip line.now state.old }
{
    let room = &mut out[fill..];
    if skip {
        let fill = fill + lines::wrong(room);
        return Told { fill, known };
    }
    if known {
        let fill = fill + lines::answer_in(state, line, room);
        return Told { fill, known };
    }
    let fill = fill + lines::answer(state, line, room);
    let known = inspect::is_good(state);
    Told { fill, known }
}

// The next byte of the input: LF ends the line that has begun, and it is answered.
fn next(state: &mut [u32], buf: &[u8], end: usize, out: &mut [u8], p: Left) -> Left
    requires known { Known p.known state.old }
    requires fill_in_bounds { p.«fill» + 22 ≤ length out.old }
    requires start_bound { (p.«start» ≤ p.place) × ((p.place < end) × (end ≤ length buf.now)) }
    ensures start_bound_2 { (result.«start» ≤ result.place) × (result.place ≡ p.place + 1) }
    ensures fill_bound { (result.«fill» ≤ p.«fill» + 22) × Known result.known state.new }
    ensures cut { Cut buf.now end p state.old out.old result state.new out.new }
{
    let place = p.place + 1;
    if buf[p.place] != b'\n' {
        return Left { place, ..p };
    }
    let Told { fill, known } = one(state, &buf[p.start..p.place], out, p.fill, p.skip, p.known);
    Left {
        start: place,
        place,
        skip: false,
        fill,
        known,
        sent: p.sent,
    }
}

// Cuts the input into lines and answers each, up to `end` or until there is no room for another
// answer. The loop is a `while`: its place stands in `left`, and a `for` would count it once more.
pub fn cut(state: &mut [u32], buf: &[u8], end: usize, out: &mut Room, p: Left) -> Left
    requires known { Known p.known state.old }
    requires fill_value { p.«fill» ≡ 0 }
    requires start_bound { (p.«start» ≤ p.place) × ((p.place < end) × (end ≤ length buf.now)) }
    ensures start_bound_2 { (result.«start» ≤ result.place) × ((p.place < result.place) × (result.place ≤ end)) }
    ensures fill_bound { (result.«fill» ≤ 65536) × Known result.known state.new }
    ensures cut { Cut buf.now end p state.old out.old result state.new out.new }
{
    let mut left = p;
    while left.place < end && left.fill <= 65514 {
        left = next(state, buf, end, out, left);
    }
    left
}

// What is kept of the line that has begun, at the front of the input: its bytes, or that it is too
// long.
pub fn keep(buf: &mut [u8], p: Left) -> Carry
    requires { (p.«start» ≤ p.place) × (p.place ≤ length buf.old) }
    ensures held_bound { (result.held ≤ 256) × ((result.known ≡ p.known) × ((result.more ≡ p.sent) × (result.sent ≡ p.sent))) }
    ensures kept { Kept buf.old p result.skip result.held buf.new }
{
    let rest = p.place - p.start;
    let over = Carry {
        held: 0,
        skip: true,
        known: p.known,
        more: p.sent,
        sent: p.sent,
    };
    if p.skip || rest > 256 {
        return over;
    }
    buf.copy_within(p.start..p.place, 0);
    Carry {
        held: rest,
        skip: false,
        ..over
    }
}

// The end of the input: a line that has begun is answered. How many bytes wait.
pub fn finish(state: &mut [u32], buf: &[u8], out: &mut Room, c: Carry) -> usize
    requires known { Known c.known state.old }
    requires held_in_bounds { c.held ≤ length buf.now }
    ensures upper_bound { (result ≤ 22) × (take result out.new ≡ prints c.skip (take c.held buf.now) [] state.old) }
    ensures state_after { state.new ≡ leaves c.skip (take c.held buf.now) [] state.old }
{
    if (c.held == 0) & !c.skip {
        return 0;
    }
    one(state, &buf[..c.held], out, 0, c.skip, c.known).fill
}
