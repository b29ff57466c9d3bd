// What the host asks: eight setup bytes to one of seven requests or none, the table of requests by states, and the eight-byte commands.
#![tactic(auto)]

ghost use Rattle.std.specs.Prelude.{◌≡◌, ◌↔◌, IsSome, IfSome, Some, length};
ghost use Rattle.request.specs.Commands.{number_of, Decodes, unknown_words};
ghost use Rattle.request.specs.Request.{setup_of, read_of, form_of, data_for, request_of, w_length, data_asked};
ghost use Rattle.request.specs.Request.{allowed_of, row_of};

use session::State;
use std::error::Error;
use std::fmt;

#[derive(Clone, Copy, Debug, PartialEq, Eq)]
pub enum Request {
    Dnload,
    Upload,
    GetStatus,
    ClrStatus,
    GetState,
    Abort,
    Query,
}

// The eight-byte commands, by the number in byte 0; the byte after it and the rest are read by the command's own rules.
#[derive(Clone, Copy, Debug, PartialEq, Eq)]
pub enum Command {
    Prog = 1,
    Read = 2,
    Check = 3,
    Erase = 4,
    Info = 5,
    Bin = 6,
    Reset = 7,
}

// A number that is no command's.
#[derive(Clone, Copy, Debug, PartialEq, Eq)]
pub struct UnknownCommand(pub u8);

impl TryFrom<u8> for Command {
    type Error = UnknownCommand;

    ghost try_from_gives = { Decodes };

    fn try_from(number: u8) -> Result<Command, UnknownCommand> {
        match number {
            1 => Ok(Command::Prog),
            2 => Ok(Command::Read),
            3 => Ok(Command::Check),
            4 => Ok(Command::Erase),
            5 => Ok(Command::Info),
            6 => Ok(Command::Bin),
            7 => Ok(Command::Reset),
            _ => Err(UnknownCommand(number)),
        }
    }
}

impl From<Command> for u8 {
    ghost from_gives = { λ command number. number ≡ number_of command };

    fn from(command: Command) -> u8 {
        command as u8
    }
}

impl fmt::Display for UnknownCommand {
    ghost output = { λ unknown. Some (unknown_words unknown) };

    fn fmt<W: fmt::Write>(&self, f: &mut fmt::Formatter<W>) -> fmt::Result {
        write!(f, "no command has number {}", self.0)
    }
}

impl Error for UnknownCommand {}

// The parts of a setup: bmRequestType, bRequest, wValue, wIndex, wLength. Numbers as they came, since most are no request's.
#[derive(Clone, Copy, Debug, PartialEq, Eq)]
pub struct Setup {
    pub kind: u8,
    pub number: u8,
    pub value: u16,
    pub index: u16,
    pub length: u16,
}

// Setup types: to the device and from it, of a class, for an interface.
const OUT: u8 = 0x21;

const IN: u8 = 0xA1;

// Which request is allowed in which state: a row for each request of the enum, a column for each state.
const ALLOWED: [[bool; State::COUNT]; 7] = [
    [true, false, true, false, false, false],
    [true, false, false, false, true, false],
    [true, true, true, true, true, true],
    [false, false, false, false, false, true],
    [true, true, true, true, true, true],
    [true, true, true, true, true, false],
    [true, true, true, true, true, true],
];

impl Setup {
    // What isn't 8 bytes has no parts.
    #[tactic(auto, unfolding(crate::specs::Request::setup_of))]
    pub fn read(bytes: &[u8]) -> Option<Setup>
        ensures reading { result ≡ read_of bytes.now }
        ensures eight { IsSome result ↔ (length bytes.now ≡ 8) }
        ensures parts { IfSome result (λ s. s ≡ setup_of bytes.now) }
    {
        if bytes.len() != 8 {
            return None;
        }
        Some(Setup {
            kind: bytes[0],
            number: bytes[1],
            value: numbers::word(bytes, 2),
            index: numbers::word(bytes, 4),
            length: numbers::word(bytes, 6),
        })
    }

    // The request whose form the setup has.
    #[tactic(auto, unfolding(crate::specs::Request::form_of))]
    pub fn request(self) -> Option<Request>
        ensures { result ≡ form_of self }
    {
        if self.index != 0 {
            return None;
        }
        match (self.kind, self.number, self.length) {
            (OUT, 1, 0..=1024) => Some(Request::Dnload),
            (IN, 2, 1..=1024) => Some(Request::Upload),
            (IN, 3, 6) => Some(Request::GetStatus),
            (OUT, 4, 0) => Some(Request::ClrStatus),
            (IN, 5, 1) => Some(Request::GetState),
            (OUT, 6, 0) => Some(Request::Abort),
            (IN, 0x42, 4) if self.value == 0x23 => Some(Request::Query),
            _ => None,
        }
    }

    // How many data bytes come with the setup, of whatever form the rest is.
    pub fn data_asked(self) -> u16
        ensures { result ≡ data_for self }
    {
        if (self.kind == OUT) & (self.number == 1) {
            self.length
        } else {
            0
        }
    }
}

// The request that setup bytes are.
#[tactic(auto, unfolding(crate::specs::Request::setup_of, crate::specs::Request::form_of))]
pub fn read_setup(setup: &[u8]) -> Option<Request>
    ensures { result ≡ request_of setup.now }
{
    Setup::read(setup)?.request()
}

// How many bytes setup bytes speak of: 0 where they are no setup.
#[tactic(auto, unfolding(crate::specs::Request::setup_of))]
pub fn length_of(setup: &[u8]) -> u32
    ensures { result ≡ w_length setup.now }
{
    Setup::read(setup).map_or(0, |s| u32::from(s.length))
}

// How many data bytes come with setup bytes, of whatever form the rest is.
#[tactic(auto, unfolding(crate::specs::Request::setup_of, crate::specs::Request::data_asked))]
pub fn data_asked(setup: &[u8]) -> u32
    ensures { result ≡ data_asked setup.now }
{
    Setup::read(setup).map_or(0, |s| u32::from(s.data_asked()))
}

impl Request {
    fn row(self) -> usize
        ensures { result ≡ row_of self }
    {
        self as usize
    }

    // What the table says, which is of requests that bring a byte.
    fn in_table(self, s: State) -> bool
        ensures { result ≡ allowed_of self 1 s.0 }
    {
        let column = s.column();
        (column < State::COUNT) && ALLOWED[self.row()][column]
    }

    // Whether a request of so many bytes is allowed in a state. No bytes are no command, so they start no download.
    #[tactic(auto, unfolding(crate::specs::Request::allowed_of))]
    pub fn allowed(self, length: u32, s: State) -> bool
        ensures { result ≡ allowed_of self length s.0 }
    {
        match self {
            Request::Dnload if (s == State::IDLE) & (length == 0) => false,
            _ => self.in_table(s),
        }
    }
}
