// Numbers in a line of bytes, read from a place on: one after a space, or several with a byte
// between them.
#![tactic(auto)]

ghost use Rattle.std.specs.Prelude.{◌≡◌, [], ◌≤◌, length, drop, IfSome};
ghost use Rattle.text.specs.Number.{part_of, place_of, value_of};
ghost use Rattle.rows.specs.Rows.{begins as begins_with, field as field_of, numbers as numbers_of, fields as fields_of, row_of};

use text::Num;

// A row of numbers that was read to a room that was lent: how many, at least one, and the place
// after them. There is no heap for a Vec.
#[derive(Clone, Copy)]
pub struct Span {
    pub count: usize,
    pub next: usize,
}

// The byte at a place is x.
pub fn begins(line: &[u8], at: usize, x: u8) -> bool
    ensures { result ≡ begins_with x (drop at line.now) }
{
    line.get(at) == Some(&x)
}

// A space and a number up to `most`, from a place on, and the place after it.
#[tactic(auto, using(crate::proofs::Reading::begins_place, crate::proofs::Reading::field_some, crate::proofs::Reading::field_none))]
pub fn field(line: &[u8], at: usize, most: u64) -> Option<Num>
    ensures { (part_of line.now result ≡ field_of most (drop at line.now)) × (place_of result ≤ length line.now) × (value_of result ≤ most) }
{
    if begins(line, at, b' ') {
        text::decimal(line, at + 1, most)
    } else {
        None
    }
}

// Numbers from a place on with `sep` between them, to the front of `out`: all that stand there,
// none where there are more than it has room for.
fn numbers(line: &[u8], at: usize, sep: u8, most: u64, out: &mut [u32]) -> Option<Span>
    requires { most ≤ 4294967295 }
    ensures { (row_of line.now result out.new ≡ numbers_of sep most (length out.old) (drop at line.now) []) × IfSome result (λ s. (1 ≤ s.count) × (s.count ≤ length out.old) × (s.next ≤ length line.now)) }
{
    let mut from = at;
    for n in 0..out.len() {
        let Num { value, next } = text::decimal(line, from, most)?;
        out[n] = value as u32;
        if !begins(line, next, sep) {
            return Some(Span { count: n + 1, next });
        }
        from = next + 1;
    }
    None
}

// A space and numbers with `sep` between them.
#[tactic(auto, using(crate::proofs::Reading::begins_place, crate::proofs::Reading::fields_some, crate::proofs::Reading::fields_none))]
pub fn fields(line: &[u8], at: usize, sep: u8, most: u64, out: &mut [u32]) -> Option<Span>
    requires { most ≤ 4294967295 }
    ensures { (row_of line.now result out.new ≡ fields_of sep most (length out.old) (drop at line.now)) × IfSome result (λ s. (1 ≤ s.count) × (s.count ≤ length out.old) × (s.next ≤ length line.now)) }
{
    if begins(line, at, b' ') {
        numbers(line, at + 1, sep, most, out)
    } else {
        None
    }
}
