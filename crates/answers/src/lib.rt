// What the host hears, how a session goes on to another state, and the answers that refuse.
#![tactic(auto)]

ghost use Rattle.std.specs.Prelude.{◌≡◌, true};
ghost use Rattle.session.specs.Session.{phase_of, down_of, with_talk};
ghost use Rattle.session.specs.Rules.{fit_of};
ghost use Rattle.answers.specs.Answers.{answer_number, heard, heard_at};
ghost use Rattle.answers.specs.declared.Answer.{Answer};
ghost use Rattle.answers.specs.Moves.{moved_to, to_idle, to_error, to_sync, stall_of, unfit_of, fault_of, reset_of};

use session::{Download, Phase, Session, State, Status, Talk, Upload};

// What the host hears. No Result: all five go with a count of reply bytes, which is 0 in four of them, and the host is promised that.
#[derive(Clone, Copy, PartialEq, Eq, Debug)]
pub enum Answer {
    Taken,
    Stalled,
    Unfit,
    Faulted,
    ResetAsked,
}

// An answer, how many bytes of the reply are meant, and the session for the next call.
#[derive(Clone, Copy)]
pub struct Outcome {
    pub answer: Answer,
    pub count: u32,
    pub session: Session,
}

// What the host hears, and how the talk goes on from there: what is decided of an outcome. No generic of the two: each is promised by its fields.
#[derive(Clone, Copy)]
pub struct Heard {
    pub answer: Answer,
    pub count: u32,
    pub talk: Talk,
}

// The number that the host hears for an answer.
impl From<Answer> for u32 {
    ghost from_gives = { λ answer n. n ≡ answer_number answer };

    fn from(answer: Answer) -> u32 {
        match answer {
            Answer::Taken => 0,
            Answer::Stalled => 1,
            Answer::Unfit => 2,
            Answer::Faulted => 3,
            Answer::ResetAsked => 4,
        }
    }
}

// The talk in another state than upload idle: an upload that ran is over. This and the next are no methods, since Session and Talk are of
// another crate, which says what they are and moves none.
#[tactic(auto, unfolding(crate::specs::Moves::moved_to))]
pub fn moved(s: Session, phase: Phase, down: Download) -> Talk
    ensures { with_talk s result ≡ moved_to s phase down }
{
    Talk {
        phase,
        down,
        up: Upload { place: 0, ..s.up },
        ..s.talk()
    }
}

pub fn idle(s: Session) -> Talk
    ensures { with_talk s result ≡ to_idle s }
{
    moved(s, Phase::IDLE, Download::NONE)
}

fn error(s: Session, status: Status) -> Talk
    ensures { with_talk s result ≡ to_error s status.0 }
{
    let phase = Phase {
        state: State::ERROR,
        status,
        ..Phase::IDLE
    };
    moved(s, phase, Download::NONE)
}

// Download sync that leads back to idle: no download runs.
pub fn sync(s: Session) -> Talk
    ensures { with_talk s result ≡ to_sync s 2 (down_of 0 0) }
{
    let phase = Phase {
        state: State::DOWNLOAD_SYNC,
        ..Phase::IDLE
    };
    moved(s, phase, Download::NONE)
}

// Manifest sync: the download is closed.
pub fn manifest(s: Session) -> Talk
    ensures { with_talk s result ≡ moved_to s (phase_of 6 0 2) (down_of 0 0) }
{
    let phase = Phase {
        state: State::MANIFEST_SYNC,
        ..Phase::IDLE
    };
    moved(s, phase, Download::NONE)
}

impl Heard {
    pub fn taken(talk: Talk) -> Heard
        ensures { result ≡ heard Answer.Taken 0 talk }
    {
        Heard {
            answer: Answer::Taken,
            count: 0,
            talk,
        }
    }

    #[tactic(auto, unfolding(crate::specs::Moves::stall_of))]
    pub fn stalled(s: Session) -> Heard
        ensures { heard_at s result ≡ stall_of s }
    {
        let talk = if s.phase.state == State::ERROR {
            s.talk()
        } else {
            error(s, Status::STALLED)
        };
        Heard {
            answer: Answer::Stalled,
            count: 0,
            talk,
        }
    }

    #[tactic(auto, unfolding(crate::specs::Moves::unfit_of))]
    pub fn unfit(s: Session) -> Heard
        ensures { heard_at s result ≡ unfit_of s }
    {
        Heard {
            answer: Answer::Unfit,
            count: 0,
            talk: s.talk(),
        }
    }

    #[tactic(auto, unfolding(crate::specs::Moves::fault_of))]
    pub fn faulted(s: Session, status: Status) -> Heard
        ensures { heard_at s result ≡ fault_of s status.0 }
    {
        Heard {
            answer: Answer::Faulted,
            count: 0,
            talk: error(s, status),
        }
    }

    #[tactic(auto, using(session::proofs::Laws::fit_kept), unfolding(crate::specs::Moves::reset_of, session::specs::Session::fresh_of))]
    pub fn reset(s: Session) -> Heard
        requires { fit_of s ≡ true }
        ensures { heard_at s result ≡ reset_of s }
    {
        Heard {
            answer: Answer::ResetAsked,
            count: 0,
            talk: s.board.fresh_talk(),
        }
    }
}
