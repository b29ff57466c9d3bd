// The session that a board keeps between two requests, the rules that a fit one keeps, and the fresh one.
// It holds numbers only, so any bytes that a board lends are a session, and a broken one is unfit and nothing worse.
#![tactic(auto)]

ghost use Rattle.std.specs.Prelude.{◌≡◌, true};
ghost use Rattle.session.specs.Codes.{column_of, error_status};
ghost use Rattle.session.specs.Session.{allowed_split, app_end, application_of, stream_length, talk_of};
ghost use Rattle.session.specs.Session.{fresh_talk, fresh_of, zeros_of};
ghost use Rattle.session.specs.Rules.{state_rule, status_rule, running, download_rule, upload_rule};
ghost use Rattle.session.specs.Rules.{after_rule, in_application, range_rule, place_rule, flags_rule, fit_of};

use flash::{Addr, Block, Blocks};
use sums::{MOST, Sums};

// The bytes of the prefix, and how many the info bytes are.
const PREFIX_LENGTH: u64 = 8;

const INFO_LENGTH: u64 = 24;

#[repr(C)]
#[derive(Clone, Copy, PartialEq, Eq, Debug, Default)]
pub struct State(pub u8);

impl State {
    pub const IDLE: State = State(2);

    pub const DOWNLOAD_SYNC: State = State(3);

    pub const DOWNLOAD_IDLE: State = State(5);

    pub const MANIFEST_SYNC: State = State(6);

    pub const UPLOAD_IDLE: State = State(9);

    pub const ERROR: State = State(10);

    // How many states there are.
    pub const COUNT: usize = 6;

    // A state's column in tables, counted in the order above; what is no state comes behind them all, which every reader of a table asks
    // anyway, so that an Option would be no plainer.
    pub fn column(self) -> usize
        ensures { result ≡ column_of self.0 }
    {
        match self {
            State::IDLE => 0,
            State::DOWNLOAD_SYNC => 1,
            State::DOWNLOAD_IDLE => 2,
            State::MANIFEST_SYNC => 3,
            State::UPLOAD_IDLE => 4,
            State::ERROR => 5,
            _ => State::COUNT,
        }
    }
}

#[repr(C)]
#[derive(Clone, Copy, PartialEq, Eq, Debug, Default)]
pub struct Status(pub u8);

impl Status {
    pub const OK: Status = Status(0x00);

    pub const CHECK_ERASED: Status = Status(0x05);

    pub const ADDRESS: Status = Status(0x08);

    pub const NOT_DONE: Status = Status(0x09);

    pub const VENDOR: Status = Status(0x0B);

    pub const STALLED: Status = Status(0x0F);

    // A status of state error.
    fn is_error(self) -> bool
        ensures { result ≡ error_status self.0 }
    {
        matches!(
            self,
            Status::CHECK_ERASED
                | Status::ADDRESS
                | Status::NOT_DONE
                | Status::VENDOR
                | Status::STALLED
        )
    }
}

// What a start was told: A, B and the part numbers.
#[repr(C)]
#[derive(Clone, Copy, PartialEq, Eq, Debug, Default)]
pub struct Board {
    pub a: Block,
    pub b: Block,
    pub part0: u32,
    pub part1: u32,
}

// The state, its status, and the state after sync.
#[repr(C)]
#[derive(Clone, Copy, PartialEq, Eq, Debug, Default)]
pub struct Phase {
    pub state: State,
    pub status: Status,
    pub after: State,
}

// Where a running download's next byte goes, and how many bytes remain.
#[repr(C)]
#[derive(Clone, Copy, PartialEq, Eq, Debug, Default)]
pub struct Download {
    pub place: Addr,
    pub left: u32,
}

impl Download {
    // The download fields while none runs.
    pub const NONE: Download = Download {
        place: Addr(0),
        left: 0,
    };
}

// What an upload reads. Flags and the choice are numbers and no enums, since a lent byte may hold anything.
#[repr(C)]
#[derive(Clone, Copy, PartialEq, Eq, Debug, Default)]
pub struct Upload {
    // Which stream: one of the two below.
    pub choice: u8,
    // 1 if the prefix is on, 0 if it is off.
    pub prefix: u8,
    // The read range: its first block and its bytes.
    pub first: Block,
    pub len: u32,
    // How many bytes of the stream were answered.
    pub place: u32,
}

impl Upload {
    pub const FLASH_STREAM: u8 = 0;

    pub const INFO_BYTES: u8 = 1;

    // The bytes of the chosen stream; 64 bits hold the sum at any length.
    #[tactic(auto, unfolding(crate::specs::Session::stream_length))]
    fn stream_length(self) -> u64
        ensures { result ≡ stream_length self }
    {
        if self.choice == Upload::INFO_BYTES {
            INFO_LENGTH
        } else if self.prefix == 1 {
            PREFIX_LENGTH + u64::from(self.len)
        } else {
            u64::from(self.len)
        }
    }

    fn flags_rule(self) -> bool
        ensures { result ≡ flags_rule self }
    {
        (self.choice <= 1) & (self.prefix <= 1)
    }
}

// Where the talk with the host stands: all of a session that a decision changes. What is decided hands on this and no session, since the
// sums of all blocks are large, and each session that is handed back would be a copy of them on the stack. A session has these fields one by one,
// since C's struct has them so.
#[derive(Clone, Copy)]
pub struct Talk {
    pub phase: Phase,
    pub down: Download,
    pub up: Upload,
    pub unerased: u32,
}

#[repr(C)]
#[derive(Clone, Copy)]
pub struct Session {
    pub board: Board,
    pub phase: Phase,
    pub down: Download,
    pub up: Upload,
    // What the last search found, by its number. Kept to be told by INFO, so no rule judges it.
    pub unerased: u32,
    pub sums: Sums,
}

// Whether a flash can have B blocks and the application start at block A. Of two blocks and not of a Board, since a start asks it before there
// is one.
pub fn allowed_split(a: Block, b: Block) -> bool
    ensures { result ≡ allowed_split a.0 b.0 }
{
    (1 <= a.0) & (a.0 < b.0) & (b.0 as usize <= MOST)
}

impl Board {
    // The block after the application's last.
    #[tactic(auto, unfolding(crate::specs::Session::app_end))]
    pub fn app_end(self) -> Block
        ensures { result.0 ≡ app_end self }
    {
        self.b
    }

    // The blocks of the application.
    pub fn application(self) -> Blocks
        ensures blocks { result ≡ application_of self }
        ensures first { result.first.0 ≡ self.a.0 }
        ensures stop { result.stop.0 ≡ app_end self }
    {
        Blocks {
            first: self.a,
            stop: self.app_end(),
        }
    }

    // The talk after a fresh start or RESET.
    #[tactic(auto, using(crate::proofs::Laws::split_facts), unfolding(crate::specs::Session::app_end, crate::specs::Session::whole_upload))]
    pub fn fresh_talk(self) -> Talk
        requires { allowed_split self.a.0 self.b.0 ≡ true }
        ensures { result ≡ fresh_talk self }
    {
        let len = self.app_end().start().0 - self.a.start().0;
        Talk {
            phase: Phase::IDLE,
            down: Download::NONE,
            up: Upload {
                choice: Upload::FLASH_STREAM,
                prefix: 1,
                first: self.a,
                len,
                place: 0,
            },
            unerased: flash::NOWHERE,
        }
    }

    // Whether `len` bytes from block `first` on are some and lie in the application. A broken session's blocks may be any.
    pub fn in_application(self, first: Block, len: u32) -> bool
        ensures { result ≡ in_application self first.0 len }
    {
        let Some(at) = first.address() else {
            return false;
        };
        (0 < len) & at.lies_in(len, self.application())
    }

    fn range_rule(self, up: Upload) -> bool
        ensures { result ≡ range_rule self up }
    {
        self.in_application(up.first, up.len)
    }

    fn place_rule(self, phase: Phase, down: Download) -> bool
        ensures { result ≡ place_rule self phase down }
    {
        !phase.runs() | down.place.lies_in(down.left, self.application())
    }
}

impl Phase {
    pub const IDLE: Phase = Phase {
        state: State::IDLE,
        status: Status::OK,
        after: State::IDLE,
    };

    fn state_rule(self) -> bool
        ensures { result ≡ state_rule self }
    {
        self.state.column() < State::COUNT
    }

    fn status_rule(self) -> bool
        ensures { result ≡ status_rule self }
    {
        let error = self.state == State::ERROR;
        (error | (self.status == Status::OK)) & (!error | self.status.is_error())
    }

    // Whether a download runs: its fields mean something.
    fn runs(self) -> bool
        ensures { result ≡ running self }
    {
        (self.state == State::DOWNLOAD_IDLE)
            | ((self.state == State::DOWNLOAD_SYNC) & (self.after == State::DOWNLOAD_IDLE))
    }

    fn after_rule(self) -> bool
        ensures { result ≡ after_rule self }
    {
        (self.after == State::IDLE)
            | ((self.state == State::DOWNLOAD_SYNC) & (self.after == State::DOWNLOAD_IDLE))
    }

    fn download_rule(self, down: Download) -> bool
        ensures { result ≡ download_rule self down }
    {
        self.runs() | ((down.place.0 == 0) & (down.left == 0))
    }

    fn upload_rule(self, up: Upload) -> bool
        ensures { result ≡ upload_rule self up }
    {
        ((self.state == State::UPLOAD_IDLE) | (up.place == 0))
            & (u64::from(up.place) <= up.stream_length())
    }
}

impl Session {
    // The session after a fresh start.
    #[tactic(auto, unfolding(crate::specs::Session::fresh_of))]
    pub fn fresh(board: Board, sums: Sums) -> Session
        requires { allowed_split board.a.0 board.b.0 ≡ true }
        ensures { result ≡ fresh_of board sums }
    {
        let talk = board.fresh_talk();
        Session {
            board,
            phase: talk.phase,
            down: talk.down,
            up: talk.up,
            unerased: talk.unerased,
            sums,
        }
    }

    // The session that a refused start hands back: every call finds it unfit. The sums are written out, as a derived Default says of each element
    // of an array that it is zero, and the proof didn't close with that.
    #[tactic(auto, unfolding(crate::specs::Session::zeros_of))]
    pub fn zeros() -> Session
        ensures { result ≡ zeros_of }
    {
        Session {
            board: Board::default(),
            phase: Phase::default(),
            down: Download::default(),
            up: Upload::default(),
            unerased: 0,
            sums: Sums {
                block: [0; MOST],
                whole: 0,
            },
        }
    }

    // The talk as the session has it.
    pub fn talk(&self) -> Talk
        ensures { result ≡ talk_of self.now }
    {
        Talk {
            phase: self.phase,
            down: self.down,
            up: self.up,
            unerased: self.unerased,
        }
    }

    // Whether the session keeps all of its rules.
    #[tactic(auto, unfolding(crate::specs::Rules::fit_of))]
    pub fn is_fit(&self) -> bool
        ensures { result ≡ fit_of self.now }
    {
        allowed_split(self.board.a, self.board.b)
            & self.phase.state_rule()
            & self.phase.status_rule()
            & self.phase.download_rule(self.down)
            & self.phase.upload_rule(self.up)
            & self.phase.after_rule()
            & self.board.range_rule(self.up)
            & self.board.place_rule(self.phase, self.down)
            & self.up.flags_rule()
    }
}
