// The requests that answer bytes but stream none: GETSTATUS, GETSTATE and the query.
ghost use Rattle.std.specs.Prelude.{◌≤◌, ◌≡◌, ◌++◌, length, drop};
ghost use Rattle.session.specs.Session.{with_talk};
ghost use Rattle.answers.specs.declared.Answer.{Answer};
ghost use Rattle.answers.specs.Answers.{heard, heard_at, replied};
ghost use Rattle.loader.specs.Reply.{answered, entered, polled, poll_time, getstatus_of, getstate_of, query_of};

use answers::{Answer, Heard};
use session::{Phase, Session, State, Talk};

// Taken, with the bytes at the front of the reply. Each call below asks for all of the room, as a fact of its own: it is of the buffer that a
// board lends, and a type around that would be made anew at each call.
fn answer(talk: Talk, bytes: &[u8], reply: &mut [u8]) -> Heard
    requires { (length bytes.now ≤ length reply.old) × (length bytes.now ≤ 1024) }
    ensures value { result ≡ heard Answer.Taken (length bytes.now) talk }
    ensures reply_after { reply.new ≡ bytes.now ++ drop (length bytes.now) reply.old }
{
    let n = bytes.len();
    reply[..n].copy_from_slice(bytes);
    Heard {
        answer: Answer::Taken,
        count: n as u32,
        talk,
    }
}

// The same, where the talk stays as it is.
#[tactic(auto, unfolding(crate::specs::Reply::answered))]
fn stays(s: Session, bytes: &[u8], reply: &mut [u8]) -> Heard
    requires { (length bytes.now ≤ length reply.old) × (length bytes.now ≤ 1024) }
    ensures { replied (heard_at s result) reply.new ≡ answered s bytes.now reply.old }
{
    answer(s.talk(), bytes, reply)
}

// The state that a poll enters.
#[tactic(auto, unfolding(crate::specs::Reply::entered))]
fn entered(phase: Phase) -> State
    ensures { result.0 ≡ entered phase }
{
    match phase.state {
        State::DOWNLOAD_SYNC => phase.after,
        State::MANIFEST_SYNC => State::IDLE,
        state => state,
    }
}

#[tactic(auto, unfolding(crate::specs::Reply::polled))]
fn poll(s: Session) -> Talk
    ensures { with_talk s result ≡ polled s }
{
    Talk {
        phase: Phase {
            state: entered(s.phase),
            status: s.phase.status,
            after: State::IDLE,
        },
        ..s.talk()
    }
}

// How long the host is to wait before it polls again.
#[tactic(auto, unfolding(crate::specs::Reply::poll_time))]
fn poll_time(s: Session) -> u32
    ensures { result ≡ poll_time s }
{
    0
}

#[tactic(auto, unfolding(crate::specs::Reply::answered, crate::specs::Reply::getstatus_of, crate::specs::Reply::polled))]
pub fn getstatus(s: Session, reply: &mut [u8]) -> Heard
    requires { 1024 ≤ length reply.old }
    ensures { replied (heard_at s result) reply.new ≡ getstatus_of s reply.old }
{
    let wait = numbers::low::<3>(poll_time(s));
    let bytes = [
        s.phase.status.0,
        wait[0],
        wait[1],
        wait[2],
        entered(s.phase).0,
        0,
    ];
    answer(poll(s), &bytes, reply)
}

#[tactic(auto, unfolding(crate::specs::Reply::getstate_of))]
pub fn getstate(s: Session, reply: &mut [u8]) -> Heard
    requires { 1024 ≤ length reply.old }
    ensures { replied (heard_at s result) reply.new ≡ getstate_of s reply.old }
{
    let bytes = [s.phase.state.0];
    stays(s, &bytes, reply)
}

#[tactic(auto, unfolding(crate::specs::Reply::query_of))]
pub fn query(s: Session, reply: &mut [u8]) -> Heard
    requires { 1024 ≤ length reply.old }
    ensures { replied (heard_at s result) reply.new ≡ query_of s reply.old }
{
    let bytes = [0x4D, 0x4C, 0x01, 0x20];
    stays(s, &bytes, reply)
}
