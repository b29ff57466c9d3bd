// A site bundle: images packed end to end into one file, behind a count and an entry for each of them. It is read from
// any bytes, and written into a lent buffer.
#![tactic(auto)]

ghost use Rattle.std.specs.Prelude.{◌+◌, ◌^◌, ◌≤◌, ◌<◌, true, ◌≡◌, ◌++◌, length, sum, Some};
ghost use Rattle.numbers.specs.Numbers.{bytes4};
ghost use Rattle.pieces.specs.Pieces.{Laid};
ghost use Rattle.bundle.specs.Bundle.{head_size, can_count, entry_at, end_of, judged, read_from, read_of, refusal_number, part_of, image_of};
ghost use Rattle.bundle.specs.Bundle.{fits_in, entries_of, bundle_of, Writable, left, write_of};
ghost use Rattle.bundle.specs.Bundle.{refusal_words, reading_number, images_in, writing_number, bytes_written};

mod reasons;

pub use reasons::Unwritten;
use std::error::Error;
use std::fmt;

// The bytes of the count.
const COUNT: usize = 2;
// The bytes of an entry.
const ENTRY: usize = 8;
// The most images of a bundle.
const MOST: usize = 32;
// The first number past 32 bits.
const PAST: u64 = 0x1_0000_0000;

// Why a file is no bundle.
#[derive(Clone, Copy, Debug, PartialEq, Eq)]
pub enum Refusal {
    // Under 2 bytes; 0 images, or over 32; under the bytes of so many entries.
    Short,
    Count,
    Table,
    // By entry: not where the image before it ended; no bytes; an end past the file.
    Offset,
    Empty,
    Past,
    // Bytes behind the last image.
    LeftOver,
}

impl fmt::Display for Refusal {
    ghost output = { λ refusal. Some (refusal_words refusal) };

    fn fmt<W: fmt::Write>(&self, f: &mut fmt::Formatter<W>) -> fmt::Result {
        f.write_str(match self {
            Refusal::Short => "too short for a count",
            Refusal::Count => "not 1 to 32 images",
            Refusal::Table => "too short for the entries",
            Refusal::Offset => "an image is not where the one before it ended",
            Refusal::Empty => "an image has no bytes",
            Refusal::Past => "an image ends past the file",
            Refusal::LeftOver => "bytes are left over behind the last image",
        })
    }
}

impl Error for Refusal {}

// The number that C hears.
impl From<Refusal> for u32 {
    ghost from_gives = { λ refusal number. number ≡ refusal_number refusal };

    fn from(refusal: Refusal) -> u32 {
        match refusal {
            Refusal::Short => 1,
            Refusal::Count => 2,
            Refusal::Table => 3,
            Refusal::Offset => 4,
            Refusal::Empty => 5,
            Refusal::Past => 6,
            Refusal::LeftOver => 7,
        }
    }
}

// What an entry says of its image.
#[derive(Clone, Copy)]
struct Entry {
    offset: u32,
    length: u32,
}

impl Entry {
    fn read(file: &[u8], k: usize) -> Entry
        requires { head_size (k + 1) ≤ length file.now }
        ensures { result ≡ entry_at file.now k }
    {
        let at = head(k);
        Entry {
            offset: numbers::long(file, at),
            length: numbers::long(file, at + 4),
        }
    }

    // Where the image ends. The sum is made in 64 bits, so that it can't wrap.
    fn end(self) -> u64
        ensures { result ≡ end_of self }
    {
        u64::from(self.offset) + u64::from(self.length)
    }

    // In a file of so many bytes, held to where the image before it ended: where its own image ends.
    fn judge(self, at: u64, size: u64) -> Result<u64, Refusal>
        ensures { result ≡ judged size at self (Ok (end_of self)) }
    {
        if u64::from(self.offset) != at {
            return Err(Refusal::Offset);
        }
        if self.length == 0 {
            return Err(Refusal::Empty);
        }
        let end = self.end();
        if size < end {
            return Err(Refusal::Past);
        }
        Ok(end)
    }

    fn to_bytes(self) -> [u8; ENTRY]
        ensures { result ≡ bytes4 self.offset ++ bytes4 self.length }
    {
        let offset = numbers::low::<4>(self.offset);
        let length = numbers::low::<4>(self.length);
        [
            offset[0], offset[1], offset[2], offset[3], length[0], length[1], length[2], length[3],
        ]
    }
}

// A part of a file: so many bytes, from one of them on. C has it as it stands, so no bytes are no image, and no Option says so: every
// image has a byte at least.
#[repr(C)]
#[derive(Clone, Copy, Debug, Default, PartialEq, Eq)]
pub struct Part {
    pub from: usize,
    pub length: usize,
}

fn can_count(n: usize) -> bool
    ensures { result ≡ can_count n }
{
    (1..=MOST).contains(&n)
}

// The bytes of the count and of n entries: where the images of n begin, and where entry n stands.
fn head(n: usize) -> usize
    requires { head_size n < 2 ^ 64 }
    ensures { result ≡ head_size n }
{
    COUNT + ENTRY * n
}

// The entries in their order, then the end of the file.
#[tactic(auto, using(crate::proofs::Walk::let_through), unfolding(crate::specs::Bundle::read_from))]
fn read_entries(file: &[u8], count: usize) -> Result<usize, Refusal>
    requires { head_size count ≤ length file.now }
    ensures { result ≡ read_from file.now count count 0 (head_size count) }
{
    let size = file.len() as u64;
    let mut at = head(count) as u64;
    for k in 0..count {
        at = Entry::read(file, k).judge(at, size)?;
    }
    if at < size {
        return Err(Refusal::LeftOver);
    }
    Ok(count)
}

// Any bytes are a bundle of so many images, or are refused for the first thing that is wrong.
#[tactic(auto, unfolding(crate::specs::Bundle::read_of))]
pub fn read(file: &[u8]) -> Result<usize, Refusal>
    ensures { result ≡ read_of file.now }
{
    if file.len() < COUNT {
        return Err(Refusal::Short);
    }
    let count = usize::from(numbers::word(file, 0));
    if !can_count(count) {
        return Err(Refusal::Count);
    }
    if file.len() < head(count) {
        return Err(Refusal::Table);
    }
    read_entries(file, count)
}

// The number of a refusal, and 0 for what is accepted.
pub fn number(reading: Result<usize, Refusal>) -> u32
    ensures { result ≡ reading_number reading }
{
    reading.err().map_or(0, u32::from)
}

// How many images were found: none in what is refused.
pub fn images(reading: Result<usize, Refusal>) -> usize
    ensures { result ≡ images_in reading }
{
    reading.unwrap_or(0)
}

// Where an image lies, counted from 0; no bytes where there is no such image.
#[tactic(auto, using(crate::proofs::Meaning::image_inside), unfolding(crate::specs::Bundle::part_of))]
pub fn part_of(file: &[u8], k: usize) -> Part
    ensures { (result ≡ part_of file.now k) × (result.from + result.length ≤ length file.now) }
{
    // What is refused holds no image.
    if read(file).unwrap_or(0) <= k {
        return Part::default();
    }
    let entry = Entry::read(file, k);
    Part {
        from: entry.offset as usize,
        length: entry.length as usize,
    }
}

// The image itself, a part of the file.
#[tactic(auto, unfolding(crate::specs::Bundle::image_of))]
pub fn image(file: &[u8], k: usize) -> &[u8]
    ensures { result.now ≡ image_of file.now k }
{
    let part = part_of(file, k);
    &file[part.from..part.from + part.length]
}

// Whether a bundle's numbers have 32 bits and its bytes have room. An offset and a length of 32 bits have a sum of 33 at most.
#[tactic(auto, using(crate::proofs::Laws::next, crate::proofs::Laws::none), unfolding(crate::specs::Bundle::fits_in))]
fn fits_in(room: u64, lengths: &[u64]) -> bool
    requires { can_count (length lengths.now) ≡ true }
    ensures { result ≡ fits_in room (head_size (length lengths.now)) lengths.now }
{
    let mut at = head(lengths.len()) as u64;
    for &length in lengths {
        if PAST <= at || PAST <= length {
            return false;
        }
        at += length;
    }
    at <= room
}

fn total_of(lengths: &[u64]) -> u64
    requires { sum lengths.now < 2 ^ 64 }
    ensures { result ≡ sum lengths.now }
{
    lengths.iter().sum()
}

// The entries behind the count.
fn lay_entries(lengths: &[u64], buffer: &mut [u8]) -> usize
    requires lengths_in_bounds { head_size (length lengths.now) ≤ length buffer.old }
    requires lengths_value { fits_in (length buffer.old) (head_size (length lengths.now)) lengths.now ≡ true }
    ensures { Laid buffer.old buffer.new 2 result (entries_of (head_size (length lengths.now)) lengths.now) }
{
    let mut offset = head(lengths.len()) as u64;
    let mut at = COUNT;
    for &length in lengths {
        let entry = Entry {
            offset: offset as u32,
            length: length as u32,
        };
        at = pieces::put(&entry.to_bytes(), buffer, at);
        offset += length;
    }
    at
}

#[tactic(auto, using(crate::proofs::Laws::writable_room, crate::proofs::Laws::entries_long))]
fn lay(lengths: &[u64], images: &[u8], buffer: &mut [u8]) -> usize
    requires { Writable lengths.now images.now (length buffer.old) }
    ensures { Laid buffer.old buffer.new 0 result (bundle_of lengths.now images.now) }
{
    let count = numbers::low::<2>(lengths.len() as u32);
    pieces::put(&count, buffer, 0);
    let behind = lay_entries(lengths, buffer);
    pieces::put(images, buffer, behind)
}

// The images come as their lengths, and as their bytes end to end: C hands over both so. The bundle goes to the buffer's front, and how
// many bytes it has is answered.
#[tactic(auto, using(crate::proofs::Laws::fits_total, crate::proofs::Laws::sum_is_total), unfolding(crate::specs::Bundle::write_of))]
pub fn write(lengths: &[u64], images: &[u8], buffer: &mut [u8]) -> Result<usize, Unwritten>
    ensures { left result buffer.new ≡ write_of lengths.now images.now buffer.old }
{
    if !can_count(lengths.len()) {
        return Err(Unwritten::WrongCount);
    }
    if lengths.contains(&0) {
        return Err(Unwritten::EmptyImage);
    }
    if !fits_in(buffer.len() as u64, lengths) {
        return Err(Unwritten::NoRoom);
    }
    if total_of(lengths) != images.len() as u64 {
        return Err(Unwritten::WrongLengths);
    }
    Ok(lay(lengths, images, buffer))
}

// The number of what stood in the way, and 0 for what was written.
pub fn unwritten(writing: Result<usize, Unwritten>) -> u32
    ensures { result ≡ writing_number writing }
{
    writing.err().map_or(0, u32::from)
}

// How many bytes were written: none where something stood in the way.
pub fn written(writing: Result<usize, Unwritten>) -> usize
    ensures { result ≡ bytes_written writing }
{
    writing.unwrap_or(0)
}
