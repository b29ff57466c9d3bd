// DNLOAD: the eight-byte commands in state idle, and pieces of data in state download idle. Flash is only read here: what is to be done
// to it is answered as a job.
#![tactic(auto)]

ghost use Rattle.std.specs.Prelude.{◌+◌, ◌≤◌, ◌<◌, ◌≡◌, ◌↔◌, true, IsSome, IfSome, length, get_or};
ghost use Rattle.request.specs.Commands.{number_of};
ghost use Rattle.flash.specs.Flash.{start_of, Within};
ghost use Rattle.session.specs.Rules.{fit_of};
ghost use Rattle.answers.specs.Answers.{heard_at};
ghost use Rattle.jobs.specs.Job.{planned, plan_of};
ghost use Rattle.jobs.specs.declared.Job.{Job};
ghost use Rattle.command.specs.Ready.{Ready, Loading};
ghost use Rattle.command.specs.Download.{wrote_of, fault_plan, if_erased, prog_of, read_of, check_of, erase_of};
ghost use Rattle.command.specs.Download.{info_of, prefix_for, bin_of, well_formed, by_number, command_of, closed_of, piece_of, dnload_of};

use answers::Heard;
use flash::{Addr, Block};
use jobs::{Decision, Job};
use request::Command;
use session::{Download, Phase, Session, State, Status, Upload};

// The call's data, but for the first `skip` bytes of it, is to go to its places, and the download goes on behind these n bytes.
#[tactic(auto, unfolding(crate::specs::Download::wrote_of))]
fn write(s: Session, at: Addr, skip: u32, n: u32, left: u32) -> Decision
    requires { at.0 + n < 4294967296 }
    ensures { planned s result ≡ wrote_of s at.0 skip n left }
{
    let phase = Phase {
        state: State::DOWNLOAD_SYNC,
        status: Status::OK,
        after: State::DOWNLOAD_IDLE,
    };
    let down = Download {
        place: Addr(at.0 + n),
        left,
    };
    Decision {
        heard: Heard::taken(answers::moved(s, phase, down)),
        job: Job::Bytes { at, skip },
    }
}

// A decision like any other, and no Err: its talk goes on, and after a search it tells an address, so a caller would turn it back into one.
fn fault(s: Session, status: Status) -> Decision
    ensures { planned s result ≡ fault_plan s status.0 }
{
    Decision::only(Heard::faulted(s, status))
}

#[tactic(auto, unfolding(crate::specs::Download::read_of, answers::specs::Moves::moved_to))]
fn read(s: Session, block: Block, len: u32) -> Heard
    ensures { heard_at s result ≡ read_of s block.0 len }
{
    if !s.board.in_application(block, len) {
        return Heard::faulted(s, Status::ADDRESS);
    }
    let mut t = s;
    t.up.choice = Upload::FLASH_STREAM;
    t.up.first = block;
    t.up.len = len;
    Heard::taken(answers::sync(t))
}

// Blocks are as many bytes as lie before the block of their number.
#[tactic(auto, unfolding(crate::specs::Download::erase_of))]
fn erase(s: Session, block: Block, count: u16) -> Decision
    ensures { planned s result ≡ erase_of s block.0 count }
{
    let count = u32::from(count);
    let size = Block(count).start();
    if !s.board.in_application(block, size.0) {
        return fault(s, Status::ADDRESS);
    }
    Decision {
        heard: Heard::taken(answers::sync(s)),
        job: Job::Wipe {
            first: block,
            count,
        },
    }
}

#[tactic(auto, unfolding(crate::specs::Download::info_of, answers::specs::Moves::moved_to))]
fn info(s: Session) -> Heard
    ensures { heard_at s result ≡ info_of s }
{
    let mut t = s;
    t.up.choice = Upload::INFO_BYTES;
    Heard::taken(answers::sync(t))
}

// BIN's byte to the prefix flag: not zero asks for the bytes alone.
#[tactic(auto, unfolding(crate::specs::Download::prefix_for))]
fn prefix_for(flag: u8) -> u8
    ensures { result ≡ prefix_for flag }
{
    u8::from(flag == 0)
}

#[tactic(auto, unfolding(crate::specs::Download::bin_of, answers::specs::Moves::moved_to))]
fn bin(s: Session, flag: u8) -> Heard
    ensures { heard_at s result ≡ bin_of s flag }
{
    let mut t = s;
    let on = prefix_for(flag);
    t.up.prefix = on;
    Heard::taken(answers::sync(t))
}

// The command that the bytes are, if they are well formed: eight or more, with a known number first, and none behind any but PROG.
#[tactic(auto, unfolding(crate::specs::Download::well_formed))]
fn well_formed(d: &[u8]) -> Option<Command>
    ensures known { IsSome result ↔ (well_formed d.now ≡ true) }
    ensures number { IfSome result (λ command. number_of command ≡ get_or d.now 0 0) }
{
    if d.len() < 8 {
        return None;
    }
    match Command::try_from(d[0]) {
        Ok(Command::Prog) => Some(Command::Prog),
        Ok(command) if d.len() == 8 => Some(command),
        _ => None,
    }
}

// A session with the flash of its board, once a call has been found fit. Private: `dnload` is handed both as they are, and asks for the fact.
#[derive(Clone, Copy)]
struct Site<'a> {
    session: &'a Session,
    flash: &'a [u8],
    ghost ready: { Ready session.now flash.now },
}

impl Site<'_> {
    // A decision that holds if all of a range is erased; else the fault. Either way what the search found is told.
    // The decision is a small value that costs no search to make: a closure in its place would be no plainer.
    #[tactic(auto, unfolding(crate::specs::Download::all_erased, answers::specs::Moves::fault_of, answers::specs::Moves::moved_to))]
    fn if_erased(&self, block: Block, len: u32, x: Decision) -> Decision
        requires { Within self.now.flash.now (start_of block.0) len }
        ensures { planned self.now.session.now result
            ≡ if_erased self.now.session.now self.now.flash.now block.0 len (planned self.now.session.now x) }
    {
        let found = flash::search(self.flash, block, len);
        let number = flash::found_number(found);
        if found.is_some() {
            let mut refused = fault(*self.session, Status::CHECK_ERASED);
            refused.heard.talk.unerased = number;
            return refused;
        }
        let mut taken = x;
        taken.heard.talk.unerased = number;
        taken
    }

    #[tactic(auto, using(crate::proofs::Laws::ready_range), unfolding(crate::specs::Download::prog_of))]
    fn prog(&self, block: Block, len: u32, n: usize) -> Decision
        ensures { planned self.now.session.now result ≡ prog_of self.now.session.now self.now.flash.now block.0 len n }
    {
        if !self.session.board.in_application(block, len) {
            return fault(*self.session, Status::ADDRESS);
        }
        if (len as usize) < n {
            return fault(*self.session, Status::ADDRESS);
        }
        let x = write(*self.session, block.start(), 8, n as u32, len - n as u32);
        self.if_erased(block, len, x)
    }

    #[tactic(auto, using(crate::proofs::Laws::ready_range), unfolding(crate::specs::Download::check_of))]
    fn check(&self, block: Block, len: u32) -> Decision
        ensures { planned self.now.session.now result ≡ plan_of (check_of self.now.session.now self.now.flash.now block.0 len) Job.Nothing }
    {
        if !self.session.board.in_application(block, len) {
            return fault(*self.session, Status::ADDRESS);
        }
        let x = Decision::only(Heard::taken(answers::sync(*self.session)));
        self.if_erased(block, len, x)
    }

    // What a command does. A match says it more plainly than a table of functions would: each takes other parts of the bytes.
    #[tactic(auto, unfolding(crate::specs::Download::by_number))]
    fn by_number(&self, command: Command, d: &[u8]) -> Decision
        requires { 8 ≤ length d.now }
        ensures { planned self.now.session.now result ≡ by_number (number_of command) self.now.session.now self.now.flash.now d.now }
    {
        let block = Block(u32::from(numbers::word(d, 2)));
        let len = numbers::long(d, 4);
        match command {
            Command::Prog => self.prog(block, len, d.len() - 8),
            Command::Read => Decision::only(read(*self.session, block, len)),
            Command::Check => self.check(block, len),
            Command::Erase => erase(*self.session, block, numbers::word(d, 4)),
            Command::Info => Decision::only(info(*self.session)),
            Command::Bin => Decision::only(bin(*self.session, d[1])),
            Command::Reset => Decision::only(Heard::reset(*self.session)),
        }
    }

    #[tactic(auto, using(crate::proofs::Laws::long_enough), unfolding(crate::specs::Download::command_of))]
    fn command(&self, d: &[u8]) -> Decision
        ensures { planned self.now.session.now result ≡ command_of self.now.session.now self.now.flash.now d.now }
    {
        match well_formed(d) {
            Some(command) => self.by_number(command, d),
            None => fault(*self.session, Status::VENDOR),
        }
    }
}

#[tactic(auto, using(answers::proofs::Laws::taken_at), unfolding(crate::specs::Download::closed_of))]
fn close(s: Session) -> Heard
    ensures { heard_at s result ≡ closed_of s }
{
    if s.down.left != 0 {
        return Heard::faulted(s, Status::NOT_DONE);
    }
    Heard::taken(answers::manifest(s))
}

#[tactic(auto, unfolding(crate::specs::Download::piece_of))]
fn piece(s: Session, n: usize) -> Decision
    requires s_value { fit_of s ≡ true }
    requires state_value { s.phase.state.0 ≡ 5 }
    ensures { planned s result ≡ piece_of s n }
{
    if n == 0 {
        return Decision::only(close(s));
    }
    let left = s.down.left;
    if (left as usize) < n {
        return fault(s, Status::ADDRESS);
    }
    let place = s.down.place;
    write(s, place, 0, n as u32, left - n as u32)
}

// What a DNLOAD does in a state that allows it: a command in idle, a piece in download idle.
#[tactic(auto, unfolding(crate::specs::Download::dnload_of))]
pub fn dnload(s: Session, flash: &[u8], d: &[u8]) -> Decision
    requires ready { Ready s flash.now }
    requires loading { Loading s }
    ensures { planned s result ≡ dnload_of s flash.now d.now }
{
    if s.phase.state == State::IDLE {
        let site = Site { session: &s, flash };
        site.command(d)
    } else {
        piece(s, d.len())
    }
}
