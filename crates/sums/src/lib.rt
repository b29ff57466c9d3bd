// The kept sums of a flash: one for each application block and one over the whole application, made fresh and refreshed
// after blocks changed.
#![tactic(auto)]

ghost use Rattle.std.specs.Prelude.{◌+◌, ◌-◌, ◌≤◌, ◌≡◌};
ghost use Rattle.sums.specs.Sum.{block_sum, fresh_sums, joined_sum, most_blocks, refreshed, renewed, Split};

use flash::{Block, Blocks};

// The most blocks that a flash may have: the one place in code that says so.
pub const MOST: usize = 256;

#[repr(C)]
#[derive(Clone, Copy, PartialEq, Eq, Debug)]
pub struct Sums {
    pub block: [u32; MOST],
    pub whole: u32,
}

// The sum of a block.
#[tactic(auto, unfolding(crate::specs::Sum::block_sum, crate::specs::Sum::blocks_of, flash::specs::Flash::range))]
fn sum_of(flash: &[u8], block: Block) -> u32
    requires { Split flash.now block.0 (block.0 + 1) }
    ensures { result ≡ block_sum flash.now block.0 }
{
    let next = Block(block.0 + 1);
    let from = block.start().0 as usize;
    let to = next.start().0 as usize;
    crc::sum(&flash[from..to])
}

// The sums of some blocks anew, in place. Those blocks alone are read. By number, since both the place and the block are told by it.
fn renew(block: &mut [u32; MOST], flash: &[u8], changed: Blocks)
    requires { Split flash.now changed.first.0 changed.stop.0 }
    ensures { block.new ≡ renewed block.old flash.now changed.first.0 (changed.stop.0 - changed.first.0) }
{
    for k in changed.first.0..changed.stop.0 {
        block[k as usize] = sum_of(flash, Block(k));
    }
}

// The sum of the application, from the sums of its blocks. No byte is read.
#[tactic(auto, unfolding(crate::specs::Sum::joined_sum))]
fn whole_of(block: &[u32; MOST], app: Blocks) -> u32
    requires { (app.first.0 ≤ app.stop.0) × (app.stop.0 ≤ most_blocks) }
    ensures { result ≡ joined_sum block.now app.first.0 app.stop.0 }
{
    crc::join_all(&block[app.first.0 as usize..app.stop.0 as usize])
}

// The sums after some blocks of the application changed. As a call of its own it would have a copy of the sums on the stack, beside those of
// its caller.
#[inline(always)]
pub fn refresh(kept: Sums, flash: &[u8], app: Blocks, changed: Blocks) -> Sums
    requires split { Split flash.now app.first.0 app.stop.0 }
    requires first_le_stop { (changed.first.0 ≤ changed.stop.0) × (changed.stop.0 ≤ app.stop.0) }
    ensures { result ≡ refreshed kept flash.now app.first.0 app.stop.0 changed.first.0 changed.stop.0 }
{
    let mut sums = kept;
    renew(&mut sums.block, flash, changed);
    sums.whole = whole_of(&sums.block, app);
    sums
}

// The sums of a flash: those of the application anew, over zeros, which are written out: with a derived Default the proof didn't close.
pub fn fresh(flash: &[u8], app: Blocks) -> Sums
    requires { Split flash.now app.first.0 app.stop.0 }
    ensures { result ≡ fresh_sums flash.now app.first.0 app.stop.0 }
{
    let none = Sums {
        block: [0; MOST],
        whole: 0,
    };
    refresh(none, flash, app, app)
}
