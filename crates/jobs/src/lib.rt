// What a call does to flash. Others decide it, and are lent flash to read only; here alone a job is carried out, and the sums with it.
#![tactic(auto)]

ghost use Rattle.std.specs.Prelude.{◌≡◌};
ghost use Rattle.flash.specs.Flash.{carried};
ghost use Rattle.sums.specs.Sum.{Split};
ghost use Rattle.session.specs.Session.{app_end};
ghost use Rattle.answers.specs.Answers.{heard_at};
ghost use Rattle.jobs.specs.Job.{Place, Can, Reaches, decision_of, stores_for, sums_after, sums_done, summed};
ghost use Rattle.jobs.specs.declared.Job.{Job};

use answers::{Heard, Outcome};
use flash::{Addr, Block, Blocks};
use session::{Board, Session};
use sums::Sums;

// One of three, and no Option around two: to leave flash alone is what most calls ask for, and each match has its arm for it either way.
#[derive(Clone, Copy)]
pub enum Job {
    // Flash stays as it is.
    Nothing,
    // The call's data, but for the first `skip` bytes of it, goes to `at` and upward. A number and no slice, which would tie every decision to
    // the data's lifetime.
    Bytes { at: Addr, skip: u32 },
    // So many blocks are erased, from `first` on.
    Wipe { first: Block, count: u32 },
}

// What was decided: what the host hears, and what is still to be done to flash.
#[derive(Clone, Copy)]
pub struct Decision {
    pub heard: Heard,
    pub job: Job,
}

// The sums after n bytes were stored from `at` on. Where no byte was, all stay as kept, the whole too.
#[tactic(auto, unfolding(crate::specs::Job::sums_after))]
fn sums_after(board: Board, kept: Sums, flash: &[u8], at: Addr, n: u32) -> Sums
    requires split { Split flash.now board.a.0 (app_end board) }
    requires place { Place board at.0 n }
    ensures { result ≡ sums_after board kept flash.now at.0 n }
{
    if n == 0 {
        return kept;
    }
    let last = Addr(at.0 + (n - 1));
    let changed = Blocks {
        first: at.holder(),
        stop: Block(last.holder().0 + 1),
    };
    sums::refresh(kept, flash, board.application(), changed)
}

impl Job {
    // Does the job. The one function above `flash` that is lent flash to be changed.
    #[tactic(auto, using(crate::proofs::Laws::stores_made, crate::proofs::Laws::to_the_end), unfolding(crate::specs::Job::stores_for, flash::specs::Flash::carried))]
    pub fn carry_out(self, flash: &mut [u8], d: &[u8])
        requires { Reaches self flash.old d.now }
        ensures { flash.new ≡ carried flash.old (stores_for self d.now) }
    {
        match self {
            Job::Nothing => {}
            Job::Bytes { at, skip } => flash::program(flash, at, &d[skip as usize..]),
            Job::Wipe { first, count } => flash::erase(flash, first, count),
        }
    }

    // The sums once the job is done: of the blocks that it touched anew.
    #[tactic(auto, unfolding(crate::specs::Job::sums_wiped))]
    fn sums_done(self, board: Board, kept: Sums, flash: &[u8], d: &[u8]) -> Sums
        requires { Can self board flash.now d.now }
        ensures { result ≡ sums_done self board kept flash.now d.now }
    {
        match self {
            Job::Nothing => kept,
            Job::Bytes { at, skip } => {
                let n = (d.len() - skip as usize) as u32;
                sums_after(board, kept, flash, at, n)
            }
            Job::Wipe { first, count } => {
                let changed = Blocks {
                    first,
                    stop: Block(first.0 + count),
                };
                sums::refresh(kept, flash, board.application(), changed)
            }
        }
    }
}

impl Decision {
    // What leaves flash alone.
    pub fn only(heard: Heard) -> Decision
        ensures { result ≡ decision_of heard Job.Nothing }
    {
        Decision {
            heard,
            job: Job::Nothing,
        }
    }

    // What a call comes to once its job is done: the one place where a session is put together from what was decided. It is apart from
    // `carry_out`, so that the session's copy is not made before flash has changed: the compiler would keep both.
    pub fn finished(self, s: Session, flash: &[u8], d: &[u8]) -> Outcome
        requires { Can self.job s.board flash.now d.now }
        ensures { result ≡ summed (heard_at s self.heard) (sums_done self.job s.board s.sums flash.now d.now) }
    {
        let Heard {
            answer,
            count,
            talk,
        } = self.heard;
        Outcome {
            answer,
            count,
            session: Session {
                board: s.board,
                phase: talk.phase,
                down: talk.down,
                up: talk.up,
                unerased: talk.unerased,
                sums: self.job.sums_done(s.board, s.sums, flash, d),
            },
        }
    }
}
