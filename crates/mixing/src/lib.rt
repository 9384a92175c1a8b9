// The mixing of request §3: a number of 64 bits in, another out. Different numbers never mix to the
// same one: proofs/Apart.antt.
#![tactic(auto)]

ghost use Rattle.std.specs.Prelude.{◌≡◌, ◌<◌, ◌^◌, min};
ghost use Rattle.mixing.specs.Mixing.{mixed, drawn};

// x, mixed.
#[tactic(auto, unfolding(crate::specs::Mixing::mixed))]
pub fn mix(x: u64) -> u64
    ensures { result ≡ mixed x }
{
    let a = x ^ (x << 13);
    let b = a ^ (a >> 7);
    b ^ (b << 17)
}

// The smaller of n and 15.
fn tries(n: u32) -> u64
    ensures { result ≡ min n 15 }
{
    u64::from(n.min(15))
}

// What a card draws with n failures. An IMSI has 15 decimal digits, which 50 bits hold.
pub fn draw(imsi: u64, n: u32) -> u64
    requires { imsi < 2 ^ 60 }
    ensures { result ≡ drawn imsi n }
{
    mix(imsi * 16 + tries(n))
}
