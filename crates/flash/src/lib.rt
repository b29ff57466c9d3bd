// A flash of blocks, lent as a slice of bytes: where a block begins, the one store, erase, program, and the search for a byte
// that is not erased. How many blocks there are is the caller's to know; a range has to lie in the slice (`Within`: of the slice that is lent and
// two numbers, as they are. A type that held them would ask callers for the same, and borrow the slice besides).
#![tactic(auto)]

ghost use Rattle.std.specs.Prelude.{◌+◌, ◌<◌, ◌≤◌, ◌^◌, ◌≡◌, length, set};
ghost use Rattle.flash.specs.Flash.{start_of, reach_of, lies_in, ends_at, holder_of, Within};
ghost use Rattle.flash.specs.Flash.{blank, spliced, erased, range, first_in, searched, found_number, eight_at, Passed};

// The bytes of a block.
pub const BLOCK: u32 = 1024;

// What a byte of flash holds once it is erased.
pub const ERASED: u8 = 0xFF;

// The bytes that the search judges together.
const EIGHT: usize = 8;

// Two such eights.
const PAIR: usize = 2 * EIGHT;

// The number that eight erased bytes make.
const ALL_ERASED: u64 = 0xFFFF_FFFF_FFFF_FFFF;

// A block's number, counted from the start of flash.
#[repr(C)]
#[derive(Clone, Copy, PartialEq, Eq, Debug, Default)]
pub struct Block(pub u32);

// A byte's address, counted from the start of flash.
#[repr(C)]
#[derive(Clone, Copy, PartialEq, Eq, Debug, Default, PartialOrd, Ord)]
pub struct Addr(pub u32);

// Blocks in a row, from one to the one before another.
#[derive(Clone, Copy, PartialEq, Eq, Debug)]
pub struct Blocks {
    pub first: Block,
    pub stop: Block,
}

// The number that says that a search found no address. No flash has a byte there: its length would not be a 32-bit number.
pub const NOWHERE: u32 = 0xFFFF_FFFF;

impl Block {
    // Where the block begins, if a 32-bit address can say so: 4,194,304 blocks are 4 GiB. The one way from a block number to an address.
    pub fn address(self) -> Option<Addr>
        ensures { result ≡ reach_of self.0 }
    {
        self.0.checked_mul(BLOCK).map(Addr)
    }

    // Where a block starts that can't be out of reach.
    pub fn start(self) -> Addr
        requires { start_of self.0 < 2 ^ 32 }
        ensures { result.0 ≡ start_of self.0 }
    {
        self.address().unwrap_or(Addr(0))
    }

    // Whether a flash of `len` bytes ends where this block starts.
    pub fn ends(self, len: usize) -> bool
        ensures { result ≡ ends_at self.0 len }
    {
        self.address().is_some_and(|at| len == at.0 as usize)
    }
}

impl Addr {
    // The block that holds the byte. A quotient can't wrap, so there is nothing to check.
    pub fn holder(self) -> Block
        ensures { result.0 ≡ holder_of self.0 }
    {
        Block(self.0 / BLOCK)
    }

    // Whether the n bytes from here on lie in some blocks; 64 bits hold the sum at any n.
    pub fn lies_in(self, n: u32, blocks: Blocks) -> bool
        ensures { result ≡ lies_in self.0 n blocks.first.0 blocks.stop.0 }
    {
        let (Some(low), Some(high)) = (blocks.first.address(), blocks.stop.address()) else {
            return false;
        };
        (low <= self) & (u64::from(self.0) + u64::from(n) <= u64::from(high.0))
    }
}

// What a search found as one number, to be kept and told.
pub fn found_number(found: Option<Addr>) -> u32
    ensures { result ≡ found_number found }
{
    found.map_or(NOWHERE, |at| at.0)
}

// Every byte of flash that changes, changes here.
fn store(flash: &mut [u8], at: Addr, byte: u8)
    requires { at.0 < length flash.old }
    ensures { flash.new ≡ set flash.old at.0 byte }
{
    flash[at.0 as usize] = byte;
}

// Puts the bytes to their places from `at` upward.
#[tactic(auto, using(crate::proofs::Writing::put_none, crate::proofs::Writing::put_more, crate::proofs::Writing::put_all))]
pub fn program(flash: &mut [u8], at: Addr, bytes: &[u8])
    requires { Within flash.old at.0 (length bytes.now) }
    ensures { flash.new ≡ spliced flash.old at.0 bytes.now }
{
    for (i, &byte) in bytes.iter().enumerate() {
        store(flash, Addr(at.0 + i as u32), byte);
    }
}

// Erases n bytes from `at` upward, each by the one store, which a `fill` would go past.
fn wipe(flash: &mut [u8], at: Addr, n: u32)
    requires { Within flash.old at.0 n }
    ensures { flash.new ≡ spliced flash.old at.0 (blank n) }
{
    for i in 0..n {
        store(flash, Addr(at.0 + i), ERASED);
    }
}

// Erases `count` blocks from block `first` on.
#[tactic(auto, unfolding(crate::specs::Flash::erased))]
pub fn erase(flash: &mut [u8], first: Block, count: u32)
    requires { Within flash.old (start_of first.0) (start_of count) }
    ensures { flash.new ≡ erased flash.old first.0 count }
{
    wipe(flash, first.start(), count * BLOCK);
}

// The eight bytes from place i on as one number, low byte first. Each by its place, which is proved to lie in flash: `first_chunk` looks at
// the length once more, and a CHECK of 48 KiB then took 51,384 instructions and not 32,859.
fn eight(flash: &[u8], i: usize) -> u64
    requires { i + 8 ≤ length flash.now }
    ensures { result ≡ eight_at flash.now i }
{
    u64::from_le_bytes([
        flash[i],
        flash[i + 1],
        flash[i + 2],
        flash[i + 3],
        flash[i + 4],
        flash[i + 5],
        flash[i + 6],
        flash[i + 7],
    ])
}

// How far flash is erased on the way from one place to another, eight bytes at a time: to the eight that aren't all erased, or to where
// fewer are left. A turn judges two eights, one after the other, since with one the counting costs more than the judging: a walk over
// `chunks_exact` took 1.75 times as long in Rust. Over chunks of two eights each would be cut in two again, which is no plainer than the places.
fn past_eights(flash: &[u8], from: usize, to: usize) -> usize
    requires { (from ≤ to) × Within flash.now 0 to }
    ensures { Passed flash.now from to result }
{
    let mut at = from;
    while at + PAIR <= to {
        if eight(flash, at) != ALL_ERASED {
            return at;
        }
        if eight(flash, at + EIGHT) != ALL_ERASED {
            return at + EIGHT;
        }
        at += PAIR;
    }
    if to - at < EIGHT {
        return at;
    }
    if eight(flash, at) != ALL_ERASED {
        return at;
    }
    at + EIGHT
}

// The walk over blocks and the walk over a block's bytes are left together, at the first byte that is not erased. Eight bytes at a time
// are quicker passed over, but which of them it is only a single one can tell.
fn search_from(flash: &[u8], from: Addr, n: u32) -> Option<Addr>
    requires { Within flash.now from.0 n }
    ensures { result ≡ first_in from.0 (range flash.now from.0 n) }
{
    let start = from.0 as usize;
    let end = start + n as usize;
    let mut found = None;
    'search: for block in (start..end).step_by(BLOCK as usize) {
        let stop = end.min(block + BLOCK as usize);
        for at in past_eights(flash, block, stop)..stop {
            if flash[at] != ERASED {
                found = Some(Addr(at as u32));
                break 'search;
            }
        }
    }
    found
}

// The first byte that is not erased among the n bytes from block `first` on.
#[tactic(auto, unfolding(crate::specs::Flash::searched))]
pub fn search(flash: &[u8], first: Block, n: u32) -> Option<Addr>
    requires { Within flash.now (start_of first.0) n }
    ensures { result ≡ searched flash.now first.0 n }
{
    search_from(flash, first.start(), n)
}
