// A call and its answer as a record of 128 bytes, written and read. A timed call is a letter and
// its numbers, as `calls` has them; an AT line is its bytes. Nothing here knows what a call does.
#![tactic(auto)]

ghost use Rattle.std.specs.Prelude.{◌≡◌, ◌++◌, ◌+◌, ◌*◌, ◌≤◌, length, take, drop};
ghost use Rattle.image.specs.Image.{image_of};
ghost use Rattle.records.specs.Records.{packed, types, encoded, longest_line, numbers_in, same};

use rules::Answer;

// A record's bytes.
pub type Record = [u8; 128];

// Stores numbers, four bytes each, from a place on.
fn put_numbers(room: &mut Record, at: usize, numbers: &[u32])
    requires { at + 4 * length numbers.now ≤ 128 }
    ensures { room.new ≡ take at room.old ++ (image_of numbers.now ++ drop (4 * length numbers.now) (drop at room.old)) }
{
    image::write(numbers, &mut room[at..at + 4 * numbers.len()]);
}

// Stores bytes, from a place on.
fn put_bytes(room: &mut Record, at: usize, bytes: &[u8])
    requires { at + length bytes.now ≤ 128 }
    ensures { room.new ≡ take at room.old ++ (bytes.now ++ drop (length bytes.now) (drop at room.old)) }
{
    room[at..at + bytes.len()].copy_from_slice(bytes);
}

// The record of the timed call of a letter and its numbers, with its answer.
pub fn spell(x: u8, v: &[u32], a: Answer) -> Record
    requires { length v.now ≤ 5 }
    ensures { result ≡ packed x (image_of v.now) a }
{
    let mut room = [0; 128];
    room[0] = x;
    put_numbers(&mut room, 1, v);
    put_numbers(&mut room, 1 + 4 * v.len(), &[a.number, a.second]);
    room
}

// The record of an AT line, with its answer.
pub fn spell_line(line: &[u8], a: Answer) -> Record
    requires { length line.now ≤ longest_line }
    ensures { result ≡ encoded (types line.now) a }
{
    let n = line.len();
    let mut room = [0; 128];
    room[0] = b'A';
    put_numbers(&mut room, 1, &[n as u32]);
    put_bytes(&mut room, 5, line);
    put_numbers(&mut room, 5 + n, &[a.number, a.second]);
    room
}

// Reads the numbers behind the letter, as many as there is room for.
pub fn numbers(rec: &Record, v: &mut [u32])
    requires { length v.old ≤ 5 }
    ensures { v.new ≡ numbers_in (length v.old) rec.now }
{
    image::read(&rec[1..1 + 4 * v.len()], v);
}

// Whether two records are the same bytes.
pub fn same(a: &[u8], b: &[u8]) -> bool
    ensures { result ≡ same a.now b.now }
{
    a == b
}
