// Words of 32 bits in byte slices, the lowest byte first; signed ones in two's complement.
// A `read_` takes every place and reads 0 past the end; a `_within` tests no end, and its caller shows that the word is inside.
#![tactic(auto)]

ghost use Rattle.std.specs.Prelude.{◌≡◌, ◌+◌, ◌≤◌, length};
ghost use Rattle.wire.specs.Wire.{byte_at, u32_at, i32_at, signed_of, bits_of, put_u32};

// The byte at a place, and 0 past the end.
pub fn byte(s: &[u8], at: usize) -> u8
    ensures { result ≡ byte_at s.now at }
{
    s.get(at).copied().unwrap_or(0)
}

pub fn read_u32(s: &[u8], at: usize) -> u32
    ensures { result ≡ u32_at s.now at }
{
    let rest = s.get(at..).unwrap_or(&[]);
    u32::from_le_bytes([byte(rest, 0), byte(rest, 1), byte(rest, 2), byte(rest, 3)])
}

#[tactic(auto, unfolding(crate::specs::Wire::u32_at))]
pub fn u32_within(s: &[u8], at: usize) -> u32
    requires { at + 4 ≤ length s.now }
    ensures { result ≡ u32_at s.now at }
{
    u32::from_le_bytes([s[at], s[at + 1], s[at + 2], s[at + 3]])
}

// The signed number of 32 bits.
#[tactic(auto, unfolding(crate::specs::Wire::signed_of))]
pub fn signed(n: u32) -> i32
    ensures { result ≡ signed_of n }
{
    n.cast_signed()
}

// The 32 bits of a signed number.
pub fn bits(v: i32) -> u32
    ensures { result ≡ bits_of v }
{
    v.cast_unsigned()
}

// Kept: each signed form is one line over the unsigned one; a trait of words with its laws is longer than the three.
pub fn read_i32(s: &[u8], at: usize) -> i32
    ensures { result ≡ i32_at s.now at }
{
    signed(read_u32(s, at))
}

pub fn i32_within(s: &[u8], at: usize) -> i32
    requires { at + 4 ≤ length s.now }
    ensures { result ≡ i32_at s.now at }
{
    signed(u32_within(s, at))
}

pub fn write_u32(s: &mut [u8], at: usize, n: u32)
    requires { at + 4 ≤ length s.old }
    ensures { s.new ≡ put_u32 s.old at n }
{
    s[at..at + 4].copy_from_slice(&n.to_le_bytes());
}

pub fn write_i32(s: &mut [u8], at: usize, v: i32)
    requires { at + 4 ≤ length s.old }
    ensures { s.new ≡ put_u32 s.old at (bits_of v) }
{
    write_u32(s, at, bits(v));
}
