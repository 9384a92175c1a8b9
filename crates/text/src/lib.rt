// Decimals out of bytes, and bytes out of decimals: only this crate knows what a digit is. Assumes
// nothing.
#![tactic(auto)]

ghost use Rattle.std.specs.Prelude.{◌≡◌, ◌+◌, ◌≤◌, length, drop, MatchOption};
ghost use Rattle.std.proofs.lemmas.List.Edits.{sets};
ghost use Rattle.text.specs.Printed.{print_num, print_two};
ghost use Rattle.text.specs.Number.{digit_of, num, part_of, place_of, value_of};

// A number that was read, and the place after it.
#[derive(Clone, Copy)]
pub struct Num {
    pub value: u64,
    pub next: usize,
}

// The digit that a byte is.
#[tactic(auto, unfolding(crate::specs::Number::digit_of))]
fn digit(b: u8) -> Option<u64>
    ensures { MatchOption result (digit_of b ≡ 10) (λ d. (d ≡ digit_of b) × (d ≤ 9)) }
{
    if b.is_ascii_digit() {
        Some((b - b'0') as u64)
    } else {
        None
    }
}

// The decimal at a place, up to `most`, and the place after it. A 0 stands alone; a number above
// `most` is nothing.
#[tactic(auto, using(crate::proofs::NumberLaws::num_zero_at))]
pub fn decimal(line: &[u8], at: usize, most: u64) -> Option<Num>
    ensures { (part_of line.now result ≡ num most (drop at line.now)) × (place_of result ≤ length line.now) × (value_of result ≤ most) }
{
    let first = digit(*line.get(at)?)?;
    if first == 0 {
        return Some(Num {
            value: 0,
            next: at + 1,
        });
    }
    if most < first {
        return None;
    }
    let mut value = first;
    for next in at + 1..line.len() {
        let Some(d) = digit(line[next]) else {
            return Some(Num { value, next });
        };
        if most < d || (most - d) / 10 < value {
            return None;
        }
        value = value * 10 + d;
    }
    Some(Num {
        value,
        next: line.len(),
    })
}

// Writes a number from a place on, and answers the place after it.
#[tactic(auto, using(crate::proofs::Putting::length_one, crate::proofs::Putting::length_many, crate::proofs::Putting::put_one, crate::proofs::Putting::put_many))]
pub fn put(out: &mut [u8], at: usize, n: u32) -> usize
    requires { at + length (print_num n) ≤ length out.old }
    ensures { (out.new ≡ sets out.old at (print_num n)) × (result ≡ at + length (print_num n)) }
{
    if n < 10 {
        out[at] = b'0' + n as u8;
        return at + 1;
    }
    let next = put(out, at, n / 10);
    out[next] = b'0' + (n % 10) as u8;
    next + 1
}

// Writes two numbers with a space between, and LF, from a place on, and answers the place after
// them: at most 22 bytes.
#[tactic(auto, using(crate::proofs::Putting::ten_digits, crate::proofs::Putting::length_two, crate::proofs::Putting::put_two))]
pub fn put_two(out: &mut [u8], at: usize, n: u32, m: u32) -> usize
    requires { at + 22 ≤ length out.old }
    ensures out_after { (out.new ≡ sets out.old at (print_two n m)) × (result ≡ at + length (print_two n m)) }
    ensures upper_bound { result ≤ at + 22 }
{
    let next = put(out, at, n);
    out[next] = b' ';
    let last = put(out, next + 1, m);
    out[last] = b'\n';
    last + 1
}
