// UPLOAD: how an upload goes through the chosen stream.
ghost use Rattle.std.specs.Prelude.{◌+◌, ◌≤◌, ◌<◌, ◌^◌, ◌≡◌, length};
ghost use Rattle.session.specs.Session.{with_talk};
ghost use Rattle.answers.specs.Answers.{heard_at, replied};
ghost use Rattle.command.specs.Ready.{Ready};
ghost use Rattle.loader.specs.Upload.{place_of, upload_ends, uploading_at, uploaded_of, upload_of};

use answers::{Answer, Heard};
use session::{Download, Phase, Session, State, Talk, Upload};

// Where the answer starts: an upload begun in state idle starts at the stream's first byte.
#[tactic(auto, unfolding(crate::specs::Upload::place_of))]
fn place(s: Session) -> u32
    ensures { result ≡ place_of s }
{
    if s.phase.state == State::UPLOAD_IDLE {
        s.up.place
    } else {
        0
    }
}

// Whether the upload ends with this answer.
#[tactic(auto, unfolding(crate::specs::Upload::upload_ends))]
fn ends(asked: u32, given: u32) -> bool
    ensures { result ≡ upload_ends asked given }
{
    asked < 1024
}

#[tactic(auto, unfolding(crate::specs::Upload::uploading_at))]
fn uploading(s: Session, place: u32) -> Talk
    ensures { with_talk s result ≡ uploading_at s place }
{
    Talk {
        phase: Phase {
            state: State::UPLOAD_IDLE,
            ..Phase::IDLE
        },
        down: Download::NONE,
        up: Upload { place, ..s.up },
        ..s.talk()
    }
}

// The talk after `given` bytes from place `from` on were answered.
#[tactic(auto, unfolding(crate::specs::Upload::uploaded_of))]
fn uploaded(s: Session, asked: u32, from: u32, given: u32) -> Talk
    requires { (from ≡ place_of s) × (from + given < 2 ^ 32) }
    ensures { with_talk s result ≡ uploaded_of s asked given }
{
    if ends(asked, given) {
        answers::idle(s)
    } else {
        uploading(s, from + given)
    }
}

pub fn upload(s: Session, flash: &[u8], asked: u32, reply: &mut [u8]) -> Heard
    requires ready { Ready s flash.now }
    requires asked_bound { (asked ≤ 1024) × (1024 ≤ length reply.old) }
    ensures { replied (heard_at s result) reply.new ≡ upload_of s flash.now asked reply.old }
{
    let from = place(s);
    let n = stream::send(s.board, s.unerased, s.up, flash, from, asked, reply);
    Heard {
        answer: Answer::Taken,
        count: n,
        talk: uploaded(s, asked, from, n),
    }
}
