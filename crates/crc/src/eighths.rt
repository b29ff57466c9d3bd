// Parts of a slice by their eighths. A byte step can't begin before the last has read the table; eight sums that don't wait for each other
// fill that time, and where the part ends they are joined.
ghost use Rattle.std.specs.Prelude.{◌+◌, ◌*◌, ◌/◌, ◌%◌, ◌≤◌, ◌<◌, ◌≡◌, length};
ghost use Rattle.crc.specs.Crc.{crc_from};
ghost use Rattle.crc.specs.Eighths.{each_from, with_four, one_byte_on, first_sums, Ahead};

use crate::byte_step;
use crate::halves::Halves;

// The next four bytes of each eighth are put into its sum.
#[tactic(auto, using(crate::proofs::Streams::each_turn, crate::proofs::Streams::each_done))]
fn put_in(sums: &mut [u32; 8], bytes: &[u8], at: usize, eighth: usize)
    requires { at + 7 * eighth + 4 ≤ length bytes.now }
    ensures { sums.new ≡ each_from (with_four bytes.now at eighth) sums.old 0 8 }
{
    for (s, sum) in sums.iter_mut().enumerate() {
        *sum ^= numbers::long(bytes, at + s * eighth);
    }
}

// Each sum goes through one byte of what was put in.
#[tactic(auto, using(crate::proofs::Streams::each_turn, crate::proofs::Streams::each_done))]
fn step_all(sums: &mut [u32; 8])
    ensures { sums.new ≡ each_from one_byte_on sums.old 0 8 }
{
    for sum in sums.iter_mut() {
        *sum = byte_step(*sum, 0);
    }
}

// The eighths of a part of so many bytes. The first goes on from the running value, the others start from nothing. In a turn each takes
// four bytes, and all take a step before any takes the next, so that the steps at hand never wait for each other. Its four steps are written one
// by one: they would be a loop within the loop.
fn eighths<const PART: usize>(running: u32, part: &[u8]) -> [u32; 8]
    requires part_length { length part.now ≡ PART }
    requires whole_turns { PART % 32 ≡ 0 }
    ensures { Ahead part.now 0 (PART / 8) (PART / 8) (first_sums running) result }
{
    let mut sums = [running, 0, 0, 0, 0, 0, 0, 0];
    for turn in 0..PART / 32 {
        put_in(&mut sums, part, turn * 4, PART / 8);
        step_all(&mut sums);
        step_all(&mut sums);
        step_all(&mut sums);
        step_all(&mut sums);
    }
    sums
}

// How far a sum has come: the sum of all bytes so far, and those that are left.
#[derive(Clone, Copy)]
pub struct Reached<'a> {
    pub sum: u32,
    pub rest: &'a [u8],
}

impl<'a> Reached<'a> {
    // The sum goes on over parts of one size, as long as the rest begins with one. The bits of an eighth are as many as a part has bytes.
    #[tactic(auto, using(crate::proofs::Streams::part_on, crate::proofs::Streams::parts_left))]
    pub fn over_parts<const PART: usize>(mut self, half: &Halves<PART>) -> Reached<'a>
        requires part_nonzero { 0 < PART }
        requires whole_turns { PART % 32 ≡ 0 }
        ensures same { crc_from result.sum result.rest.now ≡ crc_from self.entry.sum self.entry.rest.now }
        ensures rest_length { length result.rest.now ≡ length self.entry.rest.now % PART }
    {
        while let Some((part, rest)) = self.rest.split_at_checked(PART) {
            let sum = half.join(eighths::<PART>(self.sum, part));
            self = Reached { sum, rest };
        }
        self
    }
}
