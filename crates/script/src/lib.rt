// A script of calls, played through the loader: a line of standard output for the start, and one for each call.
#![tactic(auto)]

ghost use Rattle.std.specs.Prelude.{◌≤◌, ◌≡◌, length, IfOk};
ghost use Rattle.script.specs.Tape.{calls_in, calls_of, PlaysInput};
ghost use Rattle.script.specs.Turn.{turned, turn_of};

use crate::line::Line;
use crate::tape::Head;
use flash::Block;
use print::Hex;
use session::Session;
use std::io;
use std::io::Read;

mod line;
mod tape;

// The bytes of 255 blocks: as many as a head's one byte can name, whatever the most blocks of a flash are.
const ROOM: usize = 261_120;

// The bytes of a script that are read at most.
const MOST: usize = 65_536;

// A reply buffer is filled with this byte before each call, so that what a call leaves untouched is seen.
const UNTOUCHED: u8 = 0xEE;

// What a call is worth: its line, and the session for the next.
#[derive(Clone, Copy)]
struct Turn {
    line: Line,
    session: Session,
}

// One call with a reply buffer of its own.
#[tactic(auto, unfolding(crate::specs::Turn::turn_of, crate::specs::Turn::worth))]
fn play_call(s: Session, flash: &mut [u8], setup: &[u8], d: &[u8]) -> Turn
    ensures { turned result flash.new ≡ turn_of s flash.old setup.now d.now }
{
    let mut reply = [UNTOUCHED; 1024];
    let outcome = loader::step(s, flash, setup, d, &mut reply);
    let line = line::line_of(outcome, &reply, flash);
    let session = outcome.session;
    Turn { line, session }
}

// The calls of a script behind its head, each with the session that the one before handed back, and how many they were.
#[tactic(auto, using(crate::proofs::Counting::none_counted, crate::proofs::Counting::all_counted))]
fn play_calls(rt: &impl Print, calls: &[u8], flash: &mut [u8], first: Session) -> io::Result<usize>
    ensures { IfOk result (λ n. n ≡ calls_in calls.now) }
{
    // Counted as they are played, and no chain: each call hands its session to the next, and `?` leaves where a line can't be written.
    let mut session = first;
    let mut rest = calls;
    let mut played = 0;
    while let Some(call) = tape::next_call(rest) {
        let done = play_call(session, flash, call.setup, call.data);
        let line = done.line;
        println!(rt; "{line}")?;
        session = done.session;
        rest = call.rest;
        played += 1;
    }
    Ok(played)
}

// The flash as a run begins, the start, and the calls.
fn play_from(rt: &impl Print, head: Head, calls: &[u8], flash: &mut [u8]) -> io::Result<usize>
    requires { length flash.old ≤ 261120 }
    ensures { IfOk result (λ n. n ≡ calls_in calls.now) }
{
    let a = u32::from(head.a);
    let b = u32::from(head.b);
    tape::fill(flash, a);
    let begun = loader::start(flash, Block(a), Block(b), head.part0, head.part1);
    let answer = u32::from(begun.answer);
    let whole = Hex(begun.session.sums.whole);
    println!(rt; "start {answer} {whole}")?;
    play_calls(rt, calls, flash, begun.session)
}

// Zeros for a flash. The contract gives their number only, since every run fills its flash first.
fn room() -> [u8; ROOM]
    ensures { 261120 ≡ length result }
{
    [0u8; ROOM]
}

// Plays a script, and tells how many calls it held. One that is too short for a head says nothing. An error is one of standard output,
// and what is lent is as it was.
#[tactic(auto, unfolding(crate::specs::Tape::calls_of))]
pub fn play(rt: &impl Print, script: &[u8]) -> io::Result<usize>
    ensures { IfOk result (λ n. n ≡ calls_of script.now) }
{
    let Some((head, calls)) = tape::read_head(script) else {
        return Ok(0);
    };
    let n = usize::from(head.b) * 1024;
    let mut flash = room();
    play_from(rt, head, calls, &mut flash[..n])
}

// Plays the script that a reader gives, as much of it as there is room for, and tells how many calls it held. What the reader has left
// after an error is open.
pub fn play_input<R: Read>(rt: &impl Print, from: &mut R) -> io::Result<usize>
    ensures { IfOk result (PlaysInput (R.remaining from.old) (R.remaining from.new)) }
{
    let mut script = [0; MOST];
    let n = input::read_full(from, &mut script)?;
    play(rt, &script[..n])
}
