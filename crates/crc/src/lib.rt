// The sum of the DFU file suffix: CRC-32, reflected, with no final complement; and the join of two sums.
#![tactic(auto)]

ghost use Rattle.std.specs.Prelude.{◌≡◌};
ghost use Rattle.crc.specs.Crc.{byte_step, crc_from, crc_of};
ghost use Rattle.crc.specs.Join.{joined, joined_of};

use crate::eighths::Reached;
use crate::halves::{BITS_OF_4, BITS_OF_16, BITS_OF_32, BITS_OF_64, BITS_OF_128, BITS_OF_1024};
use crate::remainders::TABLE;

mod eighths;
mod halves;
mod remainders;

// The bytes of a block.
const BLOCK: usize = 1024;

// Where a sum starts.
pub const START: u32 = 0xFFFF_FFFF;

// Eight bits of the division at once: the low byte picks its remainder, and the rest moves down.
#[tactic(auto, using(crate::proofs::Laws::table_step, crate::proofs::Tables::table_is))]
fn byte_step(running: u32, byte: u8) -> u32
    ensures { result ≡ byte_step running byte }
{
    let low = (running ^ u32::from(byte)) % 256;
    running / 256 ^ TABLE[low as usize]
}

// The sum goes on over what doesn't fill a block: by parts, the larger first, and then byte by byte.
#[tactic(auto, using(crate::proofs::Tables::rules_of_tables), unfolding(crate::specs::Crc::crc_from))]
fn head(running: u32, bytes: &[u8]) -> u32
    ensures { result ≡ crc_from running bytes.now }
{
    let all = Reached {
        sum: running,
        rest: bytes,
    };
    let last = all
        .over_parts(&BITS_OF_64)
        .over_parts(&BITS_OF_32)
        .over_parts(&BITS_OF_16)
        .over_parts(&BITS_OF_4);
    last.rest
        .iter()
        .fold(last.sum, |sum, &byte| byte_step(sum, byte))
}

// The sum goes on from a running value: what was summed so far is its only memory. What doesn't fill a block comes first.
#[tactic(auto, using(crate::proofs::Tables::rules_of_tables, crate::proofs::Streams::blocks_on))]
pub fn sum_from(running: u32, bytes: &[u8]) -> u32
    ensures { result ≡ crc_from running bytes.now }
{
    let (odd, blocks) = bytes.split_at(bytes.len() % BLOCK);
    let before = Reached {
        sum: head(running, odd),
        rest: blocks,
    };
    before.over_parts(&BITS_OF_128).sum
}

// The sum of a slice.
#[tactic(auto, unfolding(crate::specs::Crc::crc_of))]
pub fn sum(bytes: &[u8]) -> u32
    ensures { result ≡ crc_of bytes.now }
{
    sum_from(START, bytes)
}

// The sum of some bytes and a block of 1,024 behind them, from the sum of the bytes and that of the block.
#[tactic(auto, using(crate::proofs::Tables::rules_of_tables), unfolding(crate::specs::Join::joined))]
pub fn join(before: u32, block: u32) -> u32
    ensures { result ≡ joined before block }
{
    BITS_OF_1024.past(before ^ START) ^ block
}

// The sum of blocks in a row, from their sums.
#[tactic(auto, unfolding(crate::specs::Join::joined_of, crate::specs::Join::joined_from))]
pub fn join_all(blocks: &[u32]) -> u32
    ensures { result ≡ joined_of blocks.now }
{
    blocks.iter().fold(START, |sum, &block| join(sum, block))
}
