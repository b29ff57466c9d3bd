// The suffix of a DFU file: 16 bytes behind the image that say for whom it is and vouch for all before them. It is read from any
// bytes, and written behind a file into a lent buffer.
#![tactic(auto)]

ghost use Rattle.std.specs.Prelude.{◌≤◌, ◌≡◌, ◌++◌, length, Some};
ghost use Rattle.suffix.specs.Suffix.{parts_of, summed, read_of, refusal_number, reading_number, refusal_words};
ghost use Rattle.suffix.specs.Suffix.{front_of, sum_bytes, size_with, laid, left, write_of, unwritten_number, unwritten_words};

use std::error::Error;
use std::fmt;

// The bytes of a suffix.
const SIZE: usize = 16;
// Those of them that its sum covers.
const FRONT: usize = 12;
// bcdDFU: the standard's version, 1.0.
const VERSION: u16 = 0x0100;
// What the signature's bytes are: UFD.
const SIGNATURE: [u8; 3] = [0x55, 0x46, 0x44];

// bcdDevice, idProduct and idVendor.
#[repr(C)]
#[derive(Clone, Copy, Debug, Default, PartialEq, Eq)]
pub struct Parts {
    pub device: u16,
    pub product: u16,
    pub vendor: u16,
}

// A file of so many bytes with its suffix.
#[derive(Clone, Copy, Debug, PartialEq, Eq)]
pub struct Suffixed {
    pub parts: Parts,
    pub length: usize,
}

// Why bytes are no file with its suffix.
#[derive(Clone, Copy, Debug, PartialEq, Eq)]
pub enum Refusal {
    // Under 16 bytes; then the first of these that is not as it must be.
    Short,
    Signature,
    Length,
    Version,
    Sum,
}

impl fmt::Display for Refusal {
    ghost output = { λ refusal. Some (refusal_words refusal) };

    fn fmt<W: fmt::Write>(&self, f: &mut fmt::Formatter<W>) -> fmt::Result {
        f.write_str(match self {
            Refusal::Short => "too short for a suffix",
            Refusal::Signature => "no suffix's signature",
            Refusal::Length => "another length of suffix",
            Refusal::Version => "another version of DFU",
            Refusal::Sum => "another sum",
        })
    }
}

impl Error for Refusal {}

// The number that C hears.
impl From<Refusal> for u16 {
    ghost from_gives = { λ refusal number. number ≡ refusal_number refusal };

    fn from(refusal: Refusal) -> u16 {
        match refusal {
            Refusal::Short => 1,
            Refusal::Signature => 2,
            Refusal::Length => 3,
            Refusal::Version => 4,
            Refusal::Sum => 5,
        }
    }
}

// The buffer is too small for the file and its suffix.
#[derive(Clone, Copy, Debug, PartialEq, Eq)]
pub struct NoRoom;

impl fmt::Display for NoRoom {
    ghost output = { λ _. Some unwritten_words };

    fn fmt<W: fmt::Write>(&self, f: &mut fmt::Formatter<W>) -> fmt::Result {
        f.write_str("no room for the file and its suffix")
    }
}

impl Error for NoRoom {}

// The number that C hears.
impl From<NoRoom> for u32 {
    ghost from_gives = { λ unwritten number. number ≡ unwritten_number unwritten };

    fn from(_unwritten: NoRoom) -> u32 {
        1
    }
}

fn parts_of(suffix: &[u8; SIZE]) -> Parts
    ensures { result ≡ parts_of suffix.now }
{
    Parts {
        device: numbers::word(suffix, 0),
        product: numbers::word(suffix, 2),
        vendor: numbers::word(suffix, 4),
    }
}

fn summed(suffix: &[u8; SIZE], covered: &[u8]) -> bool
    ensures { result ≡ summed suffix.now covered.now }
{
    numbers::long(suffix, FRONT) == crc::sum(covered)
}

// Any bytes are a file with its suffix, or are refused for the first thing that is wrong. In the suffix bcdDFU stands at 6, the
// signature at 8, the length at 11, and the sum behind the front.
#[tactic(auto, unfolding(crate::specs::Suffix::read_of))]
pub fn read(file: &[u8]) -> Result<Suffixed, Refusal>
    ensures { result ≡ read_of file.now }
{
    let (image, suffix) = file.split_last_chunk::<SIZE>().ok_or(Refusal::Short)?;
    if suffix[8..11] != SIGNATURE[..] {
        return Err(Refusal::Signature);
    }
    if suffix[11] != SIZE as u8 {
        return Err(Refusal::Length);
    }
    if numbers::word(suffix, 6) != VERSION {
        return Err(Refusal::Version);
    }
    if !summed(suffix, &file[..image.len() + FRONT]) {
        return Err(Refusal::Sum);
    }
    Ok(Suffixed {
        parts: parts_of(suffix),
        length: image.len(),
    })
}

// The number of a refusal, and 0 for what is accepted.
pub fn number(reading: Result<Suffixed, Refusal>) -> u16
    ensures { result ≡ reading_number reading }
{
    reading.err().map_or(0, u16::from)
}

// The suffix but for its sum.
#[tactic(auto, unfolding(crate::specs::Suffix::front_of))]
fn front(parts: Parts) -> [u8; FRONT]
    ensures { result ≡ front_of parts }
{
    let mut front = [0; FRONT];
    front[..2].copy_from_slice(&numbers::low::<2>(u32::from(parts.device)));
    front[2..4].copy_from_slice(&numbers::low::<2>(u32::from(parts.product)));
    front[4..6].copy_from_slice(&numbers::low::<2>(u32::from(parts.vendor)));
    front[6..8].copy_from_slice(&numbers::low::<2>(u32::from(VERSION)));
    front[8..11].copy_from_slice(&SIGNATURE);
    front[11] = SIZE as u8;
    front
}

// The sum goes on over the front, so that the two parts need not stand in one slice.
#[tactic(auto, using(crate::proofs::Laws::goes_on), unfolding(crate::specs::Suffix::sum_bytes))]
fn sum_bytes(file: &[u8], front: &[u8]) -> [u8; 4]
    ensures { result ≡ sum_bytes (file.now ++ front.now) }
{
    numbers::low(crc::sum_from(crc::sum(file), front))
}

// One by one: a loop over the three pieces would be no shorter, and would want an invariant.
fn lay(file: &[u8], parts: Parts, buffer: &mut [u8])
    requires { size_with file.now ≤ length buffer.old }
    ensures { buffer.new ≡ laid file.now parts buffer.old }
{
    let front = front(parts);
    let sum = sum_bytes(file, &front);
    let behind = pieces::put(file, buffer, 0);
    let end = pieces::put(&front, buffer, behind);
    pieces::put(&sum, buffer, end);
}

// The file and its suffix go to the buffer's front. A file that has a suffix already gets a second one.
#[tactic(auto, unfolding(crate::specs::Suffix::write_of))]
pub fn write(file: &[u8], parts: Parts, buffer: &mut [u8]) -> Result<usize, NoRoom>
    ensures { left result buffer.new ≡ write_of file.now parts buffer.old }
{
    // Checked, since the sum could wrap.
    match file.len().checked_add(SIZE) {
        Some(count) if count <= buffer.len() => {
            lay(file, parts, buffer);
            Ok(count)
        }
        _ => Err(NoRoom),
    }
}
