// A buffer as bytes, to be kept in a file: each number as four bytes, the lowest first.
#![tactic(auto)]

ghost use Rattle.std.specs.Prelude.{◌≡◌, ◌*◌, length, get_or};
ghost use Rattle.image.specs.Image.{four as four_of, number as number_of, image_of, numbers_of};

// The four bytes of a number.
fn four(n: u32) -> [u8; 4]
    ensures { result ≡ four_of n }
{
    n.to_le_bytes()
}

// The number of four bytes.
fn number(four: [u8; 4]) -> u32
    ensures { result ≡ number_of (get_or four 0 0) (get_or four 1 0) (get_or four 2 0) (get_or four 3 0) }
{
    u32::from_le_bytes(four)
}

// Writes the numbers to a room of four bytes for each.
pub fn write(numbers: &[u32], out: &mut [u8])
    requires { length out.old ≡ 4 * length numbers.now }
    ensures { out.new ≡ image_of numbers.now }
{
    for (i, &n) in numbers.iter().enumerate() {
        out[4 * i..4 * i + 4].copy_from_slice(&four(n));
    }
}

// Reads the numbers from four bytes for each.
pub fn read(bytes: &[u8], numbers: &mut [u32])
    requires { length bytes.now ≡ 4 * length numbers.old }
    ensures { numbers.new ≡ numbers_of bytes.now }
{
    for (i, &part) in bytes.as_chunks().0.iter().enumerate() {
        numbers[i] = number(part);
    }
}
