// One trace line in, its answer out. `answer` takes any buffer; `answer_in` is for one that is
// known to be good, and does not check it. Both promise the same.
#![tactic(auto)]

ghost use Rattle.std.specs.Prelude.{◌≡◌, true, false, [], ◌∷◌, ◌++◌, ◌≤◌, length, take, drop, MatchOption};
ghost use Rattle.std.specs.Borrow.{sem};
ghost use Rattle.rules.specs.Calls.{timed, typed};
ghost use Rattle.at.specs.Lines.{read_line};
ghost use Rattle.buffer.specs.Segments.{pad, paste};
ghost use Rattle.buffer.specs.Good.{good};
ghost use Rattle.clock.specs.Call.{Says};
ghost use Rattle.inspect.specs.Lent.{LendsWhole};
ghost use Rattle.calls.specs.Written.{when, what};
ghost use Rattle.lines.specs.Trace.{timed_line, typed_line, ending_of, open_line, said_by};
ghost use Rattle.lines.specs.Held.{ending_by};
ghost use Rattle.rows.specs.Rows.{UpTo};
ghost use Rattle.lines.specs.Line.{Done, printed_two, printed_wrong, LineSays};

use buffer::places::Buffer;
use calls::Call;
use refusals::Refusal;
use rules::Answer;

// The highest decimal, but for an IMSI and a file's byte.
const HIGHEST: u64 = 4294967295;

// What ends an opening: the parameter file, the leak rate file, A1 and S1.
#[derive(Clone, Copy)]
struct Tail {
    parameters: [u8; 32],
    rates: [u8; 6],
    a1: u32,
    s1: u32,
}

// The bytes of a file, to its front.
fn file(v: &[u32], out: &mut [u8])
    requires v_in_bounds { length v.now ≤ length out.old }
    requires up_to { UpTo 255 v.now }
    ensures { out.new ≡ paste out.old 0 v.now }
{
    for (i, &x) in v.iter().enumerate() {
        out[i] = x as u8;
    }
}

// What ends an opening, from a place on: six parameters and three leak rates, to the two files, and
// the house limits.
fn ending(line: &[u8], at: usize) -> Option<Tail>
    ensures { ending_by result ≡ ending_of (drop at line.now) }
{
    let mut p = [0u32; 6];
    let first = rows::fields(line, at, b',', 255, &mut p)?;
    if first.count != 6 {
        return None;
    }
    let mut q = [0u32; 3];
    let second = rows::fields(line, first.next, b',', 255, &mut q)?;
    if second.count != 3 {
        return None;
    }
    let mut h = [0u32; 2];
    let last = rows::fields(line, second.next, b' ', HIGHEST, &mut h)?;
    if last.count != 2 || last.next < line.len() {
        return None;
    }
    let mut parameters = [0u8; 32];
    file(&p, &mut parameters);
    let mut rates = [0u8; 6];
    file(&q, &mut rates);
    let [a1, s1] = h;
    Some(Tail {
        parameters,
        rates,
        a1,
        s1,
    })
}

// O: an opening. The line has the card's files; the module's own are there, and none of them rules.
fn open_line(s: &mut [u32], line: &[u8]) -> Option<Answer>
    ensures { Done s.old (open_line (drop 1 line.now)) result s.new }
{
    let time = rows::field(line, 1, HIGHEST)?;
    let imsi = rows::field(line, time.next, u64::MAX)?;
    let mut intervals = [0u32; 128];
    let read = rows::fields(line, imsi.next, b',', HIGHEST, &mut intervals)?;
    let tail = ending(line, read.next)?;
    let counters = [0u8; 32];
    let own_rates = [0u8; 6];
    Some(opening::open(
        s,
        time.value as u32,
        imsi.value,
        &intervals[..read.count],
        1,
        1,
        tail.a1,
        tail.s1,
        &tail.parameters,
        &tail.rates,
        &counters,
        &card::RTC10,
        &own_rates,
    ))
}

// The whole buffer, with its length in its type, where `ok` says that it is good. (An opening takes
// any buffer, so what is done takes a slice and `ok`, and not an `Option` of a good buffer.)
fn known(s: &mut [u32], ok: bool) -> Option<&mut Buffer>
    requires { ok ≡ good s.old }
    ensures* writes_back { sem 𝓛 (LendsWhole s.entry result) }
    ensures cases { MatchOption result (good s.old ≡ false) (λ whole. (good s.old ≡ true) × (whole.now ≡ s.old)) }
{
    if !ok {
        return None;
    }
    s.as_mut_array()
}

// A timed call.
fn happens(s: &mut [u32], call: Call, ok: bool) -> Answer
    requires { ok ≡ good s.old }
    ensures { Says s.old (timed (when call.entry) (what call.entry)) result s.new }
{
    match known(s, ok) {
        Some(state) => refusals::told(events::happen_in(state, call.time(), call.event())),
        None => Refusal::Buffer.into(),
    }
}

// Q, G, S, J, D, T: a timed call. `ok` says whether the buffer is good.
fn timed_line(s: &mut [u32], line: &[u8], x: u8, ok: bool) -> Option<Answer>
    requires { ok ≡ good s.old }
    ensures { Done s.old (timed_line x (drop 1 line.now)) result s.new }
{
    let mut v = [0u32; 5];
    let read = rows::fields(line, 1, b' ', HIGHEST, &mut v)?;
    if read.count != calls::how_many(x) || read.next < line.len() {
        return None;
    }
    Some(happens(s, Call::new(x, &v[..read.count]), ok))
}

// The rest of an A line and CR, to the front of `out`; how many bytes that is.
fn closed(line: &[u8], out: &mut [u8; 256]) -> usize
    requires { (2 ≤ length line.now) × (length line.now ≤ 256) }
    ensures { (take result out.new ≡ drop 2 line.now ++ (13 ∷ [])) × (result ≤ 256) }
{
    let rest = &line[2..];
    let n = rest.len();
    out[..n].copy_from_slice(rest);
    out[n] = b'\r';
    n + 1
}

// The AT line of an A line. On a bad buffer it is not copied.
fn types(s: &mut [u32], line: &[u8], ok: bool) -> Answer
    requires ok_value { ok ≡ good s.old }
    requires line_len { (2 ≤ length line.now) × (length line.now ≤ 256) }
    ensures { Says s.old (typed (read_line (drop 2 line.now ++ (13 ∷ [])))) result s.new }
{
    match known(s, ok) {
        Some(state) => {
            let mut text = [0u8; 256];
            let n = closed(line, &mut text);
            let mut room = [0u8; 16];
            refusals::told(command::command_in(state, &text[..n], &mut room))
        }
        None => Refusal::Buffer.into(),
    }
}

// A: an AT line.
fn typed_line(s: &mut [u32], line: &[u8], ok: bool) -> Option<Answer>
    requires ok_value { ok ≡ good s.old }
    requires line_len_bound { length line.now ≤ 256 }
    ensures { Done s.old (typed_line (drop 1 line.now)) result s.new }
{
    if !rows::begins(line, 1, b' ') {
        return None;
    }
    Some(types(s, line, ok))
}

// What a line says is done; `None` where it is ill-formed. `ok` says whether the buffer is good.
fn obey(s: &mut [u32], line: &[u8], ok: bool) -> Option<Answer>
    requires { ok ≡ good s.old }
    ensures { Done s.old (said_by line.now) result s.new }
{
    if 256 < line.len() {
        return None;
    }
    match *line.first()? {
        b'O' => open_line(s, line),
        b'A' => typed_line(s, line, ok),
        x => timed_line(s, line, x, ok),
    }
}

// Two numbers with a space between, and LF. The room is a part of one that a caller lends, at least
// so long, and no array.
fn two(out: &mut [u8], a: Answer) -> usize
    requires { 22 ≤ length out.old }
    ensures out_after { (out.new ≡ paste out.old 0 (printed_two a)) × (result ≡ length (printed_two a)) }
    ensures upper_bound { result ≤ 22 }
{
    text::put_two(out, 0, a.number, a.second)
}

// ERR and LF.
pub fn wrong(out: &mut [u8]) -> usize
    requires { 22 ≤ length out.old }
    ensures { (out.new ≡ paste out.old 0 printed_wrong) × (result ≡ 4) }
{
    out[..4].copy_from_slice(b"ERR\n");
    4
}

// What a line says is done, and its answer is written.
fn respond(s: &mut [u32], line: &[u8], out: &mut [u8], ok: bool) -> usize
    requires ok_value { ok ≡ good s.old }
    requires in_bounds { 22 ≤ length out.old }
    ensures line_says { LineSays s.old line.now out.old result s.new out.new }
    ensures upper_bound { result ≤ 22 }
{
    match obey(s, line, ok) {
        Some(a) => two(out, a),
        None => wrong(out),
    }
}

// Answers a line on a buffer that is known to be good.
pub fn answer_in(s: &mut [u32], line: &[u8], out: &mut [u8]) -> usize
    requires s_value { good s.old ≡ true }
    requires in_bounds { 22 ≤ length out.old }
    ensures line_says { LineSays s.old line.now out.old result s.new out.new }
    ensures upper_bound { result ≤ 22 }
{
    respond(s, line, out, true)
}

// Answers a line: the bytes are written to the front of the room, which takes at least 22, and
// counted.
pub fn answer(s: &mut [u32], line: &[u8], out: &mut [u8]) -> usize
    ensures line_says { LineSays s.old line.now out.old result s.new out.new }
    ensures upper_bound { result ≤ 22 }
{
    if out.len() < 22 {
        return 0;
    }
    let ok = inspect::is_good(s);
    respond(s, line, out, ok)
}
