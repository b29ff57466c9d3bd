// The loader as a board written in C calls it: a start, and one request after another over the session that the board keeps.
// Answers are numbers here, since no enum can be handed over to C. `include/mullirim.h` declares these calls.
#![tactic(auto)]

ghost use Rattle.std.specs.Prelude.{◌≡◌};
ghost use Rattle.board.specs.Board.{started_of, at_board, requested_of};

use flash::Block;
use session::Session;

// The session of a start, with its answer.
#[repr(C)]
#[derive(Clone, Copy)]
pub struct Started {
    pub code: u32,
    pub session: Session,
}

// What the host hears: the answer, and how many bytes of the reply buffer are meant.
#[repr(C)]
#[derive(Clone, Copy)]
pub struct Reply {
    pub code: u32,
    pub count: u32,
}

// A reply, with the session for the next call.
#[repr(C)]
#[derive(Clone, Copy)]
struct Handled {
    answer: Reply,
    session: Session,
}

// The fresh session of a board whose application starts at block `first` of `blocks`, or answer 2 and a session of zeros.
#[unsafe(no_mangle)]
#[tactic(auto, unfolding(crate::specs::Board::started_of))]
pub extern "C" fn mullirim_start(
    flash: &[u8],
    first: u32,
    blocks: u32,
    part: u32,
    klass: u32,
) -> Started
    ensures { result ≡ started_of flash.now first blocks part klass }
{
    let outcome = loader::start(flash, Block(first), Block(blocks), part, klass);
    Started {
        code: u32::from(outcome.answer),
        session: outcome.session,
    }
}

// One request by value, with numbers for the answer. It is apart from `mullirim_request`, so that there the store alone is left.
#[tactic(auto, unfolding(crate::specs::Board::requested_of))]
fn handle(session: Session, flash: &mut [u8], setup: &[u8], d: &[u8], reply: &mut [u8]) -> Handled
    ensures { at_board result.answer result.session flash.new reply.new
        ≡ requested_of session flash.old setup.now d.now reply.old }
{
    let outcome = loader::step(session, flash, setup, d, reply);
    Handled {
        answer: Reply {
            code: u32::from(outcome.answer),
            count: outcome.count,
        },
        session: outcome.session,
    }
}

// One request, well formed or not, in any state: the board's session is changed in place.
#[unsafe(no_mangle)]
pub extern "C" fn mullirim_request(
    session: &mut Session,
    flash: &mut [u8],
    setup: &[u8],
    d: &[u8],
    reply: &mut [u8],
) -> Reply
    ensures { at_board result session.new flash.new reply.new
        ≡ requested_of session.old flash.old setup.now d.now reply.old }
{
    let handled = handle(*session, flash, setup, d, reply);
    *session = handled.session;
    handled.answer
}
