// The loader: a fresh start, and one request after another. It checks all that it is handed, so a board's programmer need not.
#![tactic(auto)]

ghost use Rattle.std.specs.Prelude.{◌≡◌, ◌↔◌, true, length, IsSome, IfSome};
ghost use Rattle.request.specs.Request.{setup_of};
ghost use Rattle.answers.specs.Answers.{leaves, told};
ghost use Rattle.jobs.specs.Job.{planned};
ghost use Rattle.loader.specs.Step.{startable, start_outcome, ready, decided, served, decided_of, step_of, Served};

use answers::{Answer, Heard, Outcome};
use flash::Block;
use jobs::Decision;
use request::{Request, Setup};
use session::{Board, Session};

mod reply;
mod upload;

// A, B and the flash length as they must be.
#[tactic(auto, using(crate::proofs::Laws::split_ends), unfolding(crate::specs::Step::startable))]
fn allowed_start(flash_len: usize, a: Block, b: Block) -> bool
    ensures { result ≡ startable flash_len a.0 b.0 }
{
    session::allowed_split(a, b) & b.ends(flash_len)
}

// The fresh session of a board, with the sums of its flash; answer 2 and a session of zeros where A, B or the length is wrong.
// No Result: its promise is of a whole outcome, refused or not, with a session in it either way.
#[tactic(auto, unfolding(crate::specs::Step::start_outcome, crate::specs::Step::fresh_start, crate::specs::Step::startable))]
pub fn start(flash: &[u8], a: Block, b: Block, part0: u32, part1: u32) -> Outcome
    ensures { told result ≡ start_outcome flash.now a.0 b.0 part0 part1 }
{
    if !allowed_start(flash.len(), a, b) {
        return Outcome {
            answer: Answer::Unfit,
            count: 0,
            session: Session::zeros(),
        };
    }
    let board = Board { a, b, part0, part1 };
    let sums = sums::fresh(flash, board.application());
    Outcome {
        answer: Answer::Taken,
        count: 0,
        session: Session::fresh(board, sums),
    }
}

// The setup of a call that has all it must before anything is done.
#[tactic(auto, unfolding(crate::specs::Step::ready))]
fn prepared(
    s: Session,
    flash_len: usize,
    setup: &[u8],
    data_len: usize,
    reply_len: usize,
) -> Option<Setup>
    ensures ready { IsSome result ↔ (ready s flash_len setup.now data_len reply_len ≡ true) }
    ensures parts { IfSome result (λ p. p ≡ setup_of setup.now) }
{
    let parts = Setup::read(setup)?;
    let ready = (1024 <= reply_len)
        & s.board.b.ends(flash_len)
        & (data_len == parts.data_asked() as usize)
        & s.is_fit();
    ready.then_some(parts)
}

// What an allowed request does. A match over the enum: its arms take four sets of arguments, so a table of functions would be no plainer.
fn serve(r: Request, s: Session, flash: &[u8], asked: u32, d: &[u8], reply: &mut [u8]) -> Decision
    requires { Served r s flash.now asked (length reply.old) }
    ensures { decided (planned s result) reply.new ≡ served r s flash.now asked d.now reply.old }
{
    match r {
        Request::Dnload => command::dnload(s, flash, d),
        Request::Upload => Decision::only(upload::upload(s, flash, asked, reply)),
        Request::GetStatus => Decision::only(reply::getstatus(s, reply)),
        Request::ClrStatus => Decision::only(Heard::taken(answers::idle(s))),
        Request::GetState => Decision::only(reply::getstate(s, reply)),
        Request::Abort => Decision::only(Heard::taken(answers::idle(s))),
        Request::Query => Decision::only(reply::query(s, reply)),
    }
}

// What a request does, well formed or not, in any state. Flash is only read: it can't change before every check has passed.
fn decide(s: Session, flash: &[u8], setup: &[u8], d: &[u8], reply: &mut [u8]) -> Decision
    ensures { decided (planned s result) reply.new
        ≡ decided_of s flash.now setup.now d.now reply.old }
{
    let Some(setup) = prepared(s, flash.len(), setup, d.len(), reply.len()) else {
        return Decision::only(Heard::unfit(s));
    };
    let Some(request) = setup.request() else {
        return Decision::only(Heard::stalled(s));
    };
    let asked = setup.length as u32;
    if !request.allowed(asked, s.phase.state) {
        return Decision::only(Heard::stalled(s));
    }
    serve(request, s, flash, asked, d, reply)
}

// One request: decided, then carried out, and then its sums are made.
pub fn step(s: Session, flash: &mut [u8], setup: &[u8], d: &[u8], reply: &mut [u8]) -> Outcome
    ensures { leaves result flash.new reply.new
        ≡ step_of s flash.old setup.now d.now reply.old }
{
    let decision = decide(s, flash, setup, d, reply);
    decision.job.carry_out(flash, d);
    decision.finished(s, flash, d)
}
