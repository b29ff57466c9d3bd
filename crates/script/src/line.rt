// What is written of a call: its answer in numbers, and the sums of all that it left.
ghost use Rattle.std.specs.Prelude.{◌≡◌, Some};
ghost use Rattle.crc.specs.Crc.{crc_of};
ghost use Rattle.answers.specs.Answers.{leaves};
ghost use Rattle.script.specs.Turn.{sum_bytes, line_of, text_of};

use answers::Outcome;
use print::Hex;
use std::fmt;
use sums::MOST;

// State and status are the numbers that are written. The last three are the sums of the kept block sums, of the whole reply buffer and of
// the flash.
#[derive(Clone, Copy, Debug, PartialEq, Eq)]
pub struct Line {
    answer: u32,
    count: u32,
    state: u8,
    status: u8,
    whole: u32,
    sums: u32,
    reply: u32,
    flash: u32,
}

impl fmt::Display for Line {
    ghost output = { λ l. Some (text_of l) };

    fn fmt<W: fmt::Write>(&self, f: &mut fmt::Formatter<W>) -> fmt::Result {
        let Line {
            answer,
            count,
            state,
            status,
            ..
        } = *self;
        let (whole, sums, reply, flash) = (
            Hex(self.whole),
            Hex(self.sums),
            Hex(self.reply),
            Hex(self.flash),
        );
        write!(
            f,
            "{answer} {count} {state} {status} {whole} {sums} {reply} {flash}"
        )
    }
}

// The sum of the kept block sums, four bytes each.
#[tactic(auto, using(crate::proofs::Sums::next_sum, crate::proofs::Sums::no_sum_left), unfolding(crc::specs::Crc::crc_of))]
fn sum_of_sums(block: &[u32; MOST]) -> u32
    ensures { result ≡ crc_of (sum_bytes block.now) }
{
    let mut sum = crc::START;
    for &kept in block {
        sum = crc::sum_from(sum, &numbers::low::<4>(kept));
    }
    sum
}

#[tactic(auto, unfolding(crate::specs::Turn::line_of))]
pub fn line_of(outcome: Outcome, reply: &[u8], flash: &[u8]) -> Line
    ensures { result ≡ line_of (leaves outcome flash.now reply.now) }
{
    let sums = outcome.session.sums;
    Line {
        answer: u32::from(outcome.answer),
        count: outcome.count,
        state: outcome.session.phase.state.0,
        status: outcome.session.phase.status.0,
        whole: sums.whole,
        sums: sum_of_sums(&sums.block),
        reply: crc::sum(reply),
        flash: crc::sum(flash),
    }
}
