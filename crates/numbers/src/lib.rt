// Numbers in bytes, low byte first: read from a place, and taken apart to be written.
#![tactic(auto)]

ghost use Rattle.std.specs.Prelude.{◌+◌, ◌≤◌, ◌<◌, ◌≡◌, length, take};
ghost use Rattle.numbers.specs.Numbers.{word_at, long_at, bytes4};

// The 16-bit number at a place. It and the next are the library's two calls at two types: one generic function would want a trait with a law for
// them, which is no plainer. Slice and place are two parameters, since callers read several numbers of one slice.
pub fn word(bytes: &[u8], at: usize) -> u16
    requires { at + 1 < length bytes.now }
    ensures { result ≡ word_at bytes.now at }
{
    u16::from_le_bytes([bytes[at], bytes[at + 1]])
}

// The 32-bit number at a place.
pub fn long(bytes: &[u8], at: usize) -> u32
    requires { at + 3 < length bytes.now }
    ensures { result ≡ long_at bytes.now at }
{
    u32::from_le_bytes([bytes[at], bytes[at + 1], bytes[at + 2], bytes[at + 3]])
}

// The N low bytes of a number, lowest first.
pub fn low<const N: usize>(n: u32) -> [u8; N]
    requires { N ≤ 4 }
    ensures { result ≡ take N (bytes4 n) }
{
    let all = n.to_le_bytes();
    let mut low = [0; N];
    low.copy_from_slice(&all[..N]);
    low
}
