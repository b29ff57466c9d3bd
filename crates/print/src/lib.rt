// Numbers as text, in ASCII.
#![tactic(auto)]

ghost use Rattle.std.specs.Prelude.{◌+◌, ◌≤◌, ◌<◌, ◌≡◌, length, Some};
ghost use Rattle.pieces.specs.Pieces.{Laid};
ghost use Rattle.print.specs.Hex.{digit_of, hex_of};
ghost use Rattle.print.specs.Decimal.{last_digit, decimal_of};

use std::{array, fmt, str};

// The last hexadecimal digit of a number, in upper case.
#[tactic(auto, unfolding(crate::specs::Hex::digit_of))]
fn digit(n: u32) -> u8
    ensures { result ≡ digit_of n }
{
    let d = (n % 16) as u8;
    if d < 10 { b'0' + d } else { b'A' - 10 + d }
}

// The eight hexadecimal digits of a number, in upper case, the most significant first: for a text in a lent buffer, with no heap.
pub fn hex8(x: u32) -> [u8; 8]
    ensures { result ≡ hex_of x }
{
    array::from_fn(|i| digit(x >> (28 - 4 * i)))
}

// A number that is printed as these digits. Programs print sums so, and not by `{:08X}`: then what is proved of the digits is what they
// write.
#[derive(Clone, Copy, Debug, PartialEq, Eq)]
pub struct Hex(pub u32);

impl fmt::Display for Hex {
    ghost output = { λ h. Some (hex_of h.0) };

    fn fmt<W: fmt::Write>(&self, f: &mut fmt::Formatter<W>) -> fmt::Result {
        f.write_str(str::from_utf8(&hex8(self.0)).unwrap())
    }
}

fn put_last_digit(n: u64, text: &mut [u8], at: usize) -> usize
    requires { at < length text.old }
    ensures { Laid text.old text.new at result (last_digit n) }
{
    pieces::put(&[b'0' + (n % 10) as u8], text, at)
}

// The decimal digits of a number, the most significant first, from a place on. The higher ones are those of the quotient by ten: by
// recursion, as the definition has it, since a loop would find them in the other order.
#[tactic(auto, using(crate::proofs::Laws::decimal_one, crate::proofs::Laws::length_more))]
pub fn decimal(n: u64, text: &mut [u8], at: usize) -> usize
    requires { at + length (decimal_of n) ≤ length text.old }
    ensures { Laid text.old text.new at result (decimal_of n) }
{
    if n < 10 {
        return put_last_digit(n, text, at);
    }
    let last = decimal(n / 10, text, at);
    put_last_digit(n, text, last)
}
