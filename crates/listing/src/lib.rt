// A record of the journal as a trace line with its answer: document 01's letter and fields, then
// the two numbers that the gate answered, and LF. What is the record of no call has no line.
#![tactic(auto)]

ghost use Rattle.std.specs.Prelude.{◌≡◌, [], ◌∷◌, ◌++◌, ◌≢◌, ◌+◌, ◌-◌, ◌*◌, ◌≤◌, length, get_or, take};
ghost use Rattle.std.proofs.lemmas.List.Edits.{sets};
ghost use Rattle.image.specs.Image.{image_of};
ghost use Rattle.at.specs.Lines.{read_line};
ghost use Rattle.calls.specs.Letters.{letter_a, how_many};
ghost use Rattle.records.specs.Records.{types, packed, encoded, same, numbers_in};
ghost use Rattle.listing.specs.Listing.{fields_of, line_of, end_of, answer_from, taken, line_in, said, size_of};

use records::Record;
use rules::Answer;

// Writes a space and a number from a place on, and answers the place after it.
fn field(out: &mut [u8], at: usize, n: u32) -> usize
    requires { at + 11 ≤ length out.old }
    ensures out_after { (out.new ≡ sets out.old at (fields_of (n ∷ []))) × (result ≡ at + length (fields_of (n ∷ []))) }
    ensures upper_bound { result ≤ at + 11 }
{
    out[at] = b' ';
    text::put(out, at + 1, n)
}

// Writes each of the numbers so.
fn fields(out: &mut [u8], at: usize, v: &[u32]) -> usize
    requires { at + 11 * length v.now ≤ length out.old }
    ensures out_after { (out.new ≡ sets out.old at (fields_of v.now)) × (result ≡ at + length (fields_of v.now)) }
    ensures upper_bound { result ≤ at + 11 * length v.now }
{
    let mut next = at;
    for &n in v {
        next = field(out, next, n);
    }
    next
}

// Writes bytes from a place on.
pub fn bytes(out: &mut [u8], at: usize, line: &[u8])
    requires { at + length line.now ≤ length out.old }
    ensures { out.new ≡ sets out.old at line.now }
{
    out[at..at + line.len()].copy_from_slice(line);
}

// Writes an answer's two numbers, and LF.
fn ending(out: &mut [u8], at: usize, a: Answer) -> usize
    requires { at + 23 ≤ length out.old }
    ensures out_after { (out.new ≡ sets out.old at (end_of a)) × (result ≡ at + length (end_of a)) }
    ensures upper_bound { result ≤ at + 23 }
{
    let next = fields(out, at, &[a.number, a.second]);
    out[next] = b'\n';
    next + 1
}

// Writes the line of a letter and its numbers, with the answer.
fn timed_line(x: u8, v: &[u32], a: Answer, out: &mut [u8; 128]) -> usize
    requires { length v.now ≤ 5 }
    ensures out_after { take result out.new ≡ x ∷ (fields_of v.now ++ end_of a) }
    ensures upper_bound { result ≤ 128 }
{
    out[0] = x;
    let next = fields(out, 1, v);
    ending(out, next, a)
}

// Writes the line of an AT line, without its CR, with the answer.
fn typed_line(line: &[u8], a: Answer, out: &mut [u8; 128]) -> usize
    requires { (1 ≤ length line.now) × (length line.now ≤ 96) }
    ensures out_after { take result out.new ≡ line_of (types line.now) ++ end_of a }
    ensures upper_bound { result ≤ 128 }
{
    let n = line.len() - 1;
    out[0] = b'A';
    out[1] = b' ';
    bytes(out, 2, &line[..n]);
    ending(out, 2 + n, a)
}

// The two numbers from a place of a record on.
fn answer(rec: &Record, at: usize) -> Answer
    requires { at + 8 ≤ 128 }
    ensures { result ≡ answer_from at rec.now }
{
    let mut v = [0; 2];
    image::read(&rec[at..at + 8], &mut v);
    let [number, second] = v;
    Answer { number, second }
}

// Whether the bytes are the record of a letter and its numbers, with that answer.
fn is_timed(x: u8, v: &[u32], a: Answer, rec: &Record) -> bool
    requires { length v.now ≤ 5 }
    ensures { result ≡ same (packed x (image_of v.now) a) rec.now }
{
    records::same(&records::spell(x, v, a), rec)
}

// Whether they are that of an AT line.
fn is_typed(line: &[u8], a: Answer, rec: &Record) -> bool
    requires { length line.now ≤ 96 }
    ensures { result ≡ same (encoded (types line.now) a) rec.now }
{
    records::same(&records::spell_line(line, a), rec)
}

// Whether the gate takes an AT line.
fn takes(line: &[u8]) -> bool
    ensures { result ≡ taken (read_line line.now) }
{
    at::read(line).is_some()
}

// The line of a timed call's record, by way of a room for its numbers.
fn timed(rec: &Record, v: &mut [u32], out: &mut [u8; 128]) -> Option<usize>
    requires v_len { (length v.old ≡ how_many (get_or rec.now 0 0)) × (how_many (get_or rec.now 0 0) ≢ 0) }
    requires rec_nonzero { get_or rec.now 0 0 ≢ letter_a }
    ensures out_after { said result out.new ≡ line_in rec.now }
    ensures result_bound { size_of result ≤ 128 }
{
    let x = rec[0];
    records::numbers(rec, v);
    let a = answer(rec, 1 + 4 * v.len());
    if is_timed(x, v, a, rec) {
        Some(timed_line(x, v, a, out))
    } else {
        None
    }
}

// The length of the AT line in a record.
fn size(rec: &Record) -> u32
    ensures { result ≡ get_or (numbers_in 1 rec.now) 0 0 }
{
    let mut v = [0; 1];
    records::numbers(rec, &mut v);
    v[0]
}

// The line of an AT line's record.
fn typed(rec: &Record, out: &mut [u8; 128]) -> Option<usize>
    requires { get_or rec.now 0 0 ≡ letter_a }
    ensures out_after { said result out.new ≡ line_in rec.now }
    ensures result_bound { size_of result ≤ 128 }
{
    let n = size(rec) as usize;
    if 96 < n {
        return None;
    }
    let end = 5 + n;
    let line = &rec[5..end];
    let a = answer(rec, end);
    if is_typed(line, a, rec) && takes(line) {
        Some(typed_line(line, a, out))
    } else {
        None
    }
}

// Writes the line of a record to a room of 128 bytes, and answers how many bytes it has. What is
// the record of no call has none.
pub fn print(rec: &Record, out: &mut [u8; 128]) -> Option<usize>
    ensures out_after { said result out.new ≡ line_in rec.now }
    ensures result_bound { size_of result ≤ 128 }
{
    let x = rec[0];
    if x == b'A' {
        return typed(rec, out);
    }
    let n = calls::how_many(x);
    if n == 0 {
        return None;
    }
    let mut v = [0; 5];
    timed(rec, &mut v[..n], out)
}
