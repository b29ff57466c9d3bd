// What a script holds: a head of ten bytes, then a record for each call. And the flash that every run begins with.
ghost use Rattle.std.specs.Prelude.{◌+◌, ◌≤◌, ◌<◌, ◌≡◌, length, drop, MatchOption, Some, None, IfSome};
ghost use Rattle.script.specs.Tape.{head_of, call_with, record_of, first_byte, first_flash};

use flash::{BLOCK, ERASED};

// The bytes of a head.
const HEAD: usize = 10;

// A, B and the part numbers of a start.
#[derive(Clone, Copy, Debug, PartialEq, Eq)]
pub struct Head {
    pub a: u8,
    pub b: u8,
    pub part0: u32,
    pub part1: u32,
}

// The setup bytes and the data bytes of a call, and the rest of the script behind its record.
#[derive(Clone, Copy)]
pub struct Call<'a> {
    pub setup: &'a [u8],
    pub data: &'a [u8],
    pub rest: &'a [u8],
}

// The head of a script, and what stands behind it; none where the script is too short for one.
#[tactic(auto, unfolding(crate::specs::Tape::head_of))]
pub fn read_head(script: &[u8]) -> Option<(Head, &[u8])>
    ensures { MatchOption result (length script.now < 10)
        (λ p. (10 ≤ length script.now) × (p.0 ≡ head_of script.now) × (p.1.now ≡ drop 10 script.now)) }
{
    let rest = script.get(HEAD..)?;
    let head = Head {
        a: script[0],
        b: script[1],
        part0: numbers::long(script, 2),
        part1: numbers::long(script, 6),
    };
    Some((head, rest))
}

// The call whose record the rest of a script begins with; none at the end, nor where the record is cut short.
#[tactic(auto, unfolding(crate::specs::Tape::record_of))]
pub fn next_call(script: &[u8]) -> Option<Call<'_>>
    ensures call { MatchOption result (record_of script.now ≡ None)
        (λ c. record_of script.now ≡ Some (call_with c.setup.now c.data.now c.rest.now)) }
    ensures onward { IfSome result (λ c. length c.rest.now < length script.now) }
{
    let (&setup_len, rest) = script.split_first()?;
    let (setup, rest) = rest.split_at_checked(usize::from(setup_len))?;
    let (data_len, rest) = rest.split_first_chunk::<2>()?;
    let (data, rest) = rest.split_at_checked(usize::from(numbers::word(data_len, 0)))?;
    Some(Call { setup, data, rest })
}

// A pattern, with every even-numbered block of the application erased.
#[tactic(auto, unfolding(crate::specs::Tape::first_byte))]
fn first_byte(a: u32, i: u32) -> u8
    requires { i < 261120 }
    ensures { result ≡ first_byte a i }
{
    let block = i / BLOCK;
    if (a <= block) & (block % 2 == 0) {
        return ERASED;
    }
    ((i * 7 + i / 256) % 251) as u8
}

#[tactic(auto, using(crc::proofs::Values::values_of), unfolding(crate::specs::Tape::first_flash))]
pub fn fill(flash: &mut [u8], a: u32)
    requires { length flash.old ≤ 261120 }
    ensures { flash.new ≡ first_flash a (length flash.old) }
{
    for (i, byte) in flash.iter_mut().enumerate() {
        *byte = first_byte(a, i as u32);
    }
}
