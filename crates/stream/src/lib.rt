// The bytes that an upload reads: the info bytes, or a PROG header for the read range and then the range.
#![tactic(auto)]

ghost use Rattle.std.specs.Prelude.{◌+◌, ◌^◌, ◌≤◌, ◌<◌, ◌≡◌, ◌++◌, length, take, drop};
ghost use Rattle.flash.specs.Flash.{start_of, Within, range};
ghost use Rattle.session.specs.Session.{app_end, info_length, prefix_length};
ghost use Rattle.stream.specs.Stream.{header_of, info_stream, range_stream, next_of, Sendable, Sent};

use flash::BLOCK;
use request::Command;
use session::{Board, Upload};

// The info bytes, one by one: without heap no call joins arrays of different sizes.
#[tactic(auto, unfolding(crate::specs::Stream::info_stream))]
fn info(board: Board, unerased: u32) -> [u8; 24]
    requires { (start_of (app_end board) < 2 ^ 32) × (start_of board.a.0 < 2 ^ 32) }
    ensures { result ≡ info_stream board unerased }
{
    let size = numbers::low::<2>(BLOCK);
    let blocks = numbers::low::<2>(board.b.0);
    let part0 = numbers::low::<4>(board.part0);
    let part1 = numbers::low::<4>(board.part1);
    let end = numbers::low::<4>(board.app_end().start().0);
    let begin = numbers::low::<4>(board.a.start().0);
    let found = numbers::low::<4>(unerased);
    [
        size[0], size[1], blocks[0], blocks[1], part0[0], part0[1], part0[2], part0[3], part1[0],
        part1[1], part1[2], part1[3], end[0], end[1], end[2], end[3], begin[0], begin[1], begin[2],
        begin[3], found[0], found[1], found[2], found[3],
    ]
}

// A PROG header for the read range, so that what was read can be sent back as it is. One by one, as the info bytes.
#[tactic(auto, unfolding(crate::specs::Stream::header_of))]
fn header(up: Upload) -> [u8; 8]
    ensures { result ≡ header_of up }
{
    let block = numbers::low::<2>(up.first.0);
    let len = numbers::low::<4>(up.len);
    [
        u8::from(Command::Prog),
        0,
        block[0],
        block[1],
        len[0],
        len[1],
        len[2],
        len[3],
    ]
}

// As many of the bytes as there is room for to the front of the reply, and how many they were. A loop, since the library's own copy of a slice
// would want memmove of whoever links the calls, where the length is known only when it runs.
fn put(bytes: &[u8], reply: &mut [u8]) -> usize
    ensures { Sent result reply.old reply.new (take (length reply.old) bytes.now) }
{
    let n = bytes.len().min(reply.len());
    for (i, &byte) in bytes[..n].iter().enumerate() {
        reply[i] = byte;
    }
    n
}

// The bytes of two parts read as one, from byte `from` on, as many as there is room for.
#[tactic(auto, using(crate::proofs::Giving::sent_both, crate::proofs::Giving::drop_both, crate::proofs::Giving::drop_min))]
fn put_both(head: &[u8], body: &[u8], from: usize, reply: &mut [u8]) -> usize
    ensures { Sent result reply.old reply.new (take (length reply.old) (drop from (head.now ++ body.now))) }
{
    let behind = from.saturating_sub(head.len());
    let n = put(&head[from.min(head.len())..], reply);
    n + put(&body[behind.min(body.len())..], &mut reply[n..])
}

fn send_info(board: Board, unerased: u32, from: usize, reply: &mut [u8]) -> usize
    requires board_bound { (start_of (app_end board) < 2 ^ 32) × (start_of board.a.0 < 2 ^ 32) }
    requires from_le_info_length { from ≤ info_length }
    ensures { Sent result reply.old reply.new (take (length reply.old) (drop from (info_stream board unerased))) }
{
    put(&info(board, unerased)[from..], reply)
}

#[tactic(auto, unfolding(flash::specs::Flash::range))]
fn read_range(up: Upload, flash: &[u8]) -> &[u8]
    requires { Within flash.now (start_of up.first.0) up.len }
    ensures { result.now ≡ range flash.now (start_of up.first.0) up.len }
{
    let from = up.first.start().0 as usize;
    &flash[from..from + up.len as usize]
}

// The range, after its header if the prefix is on.
fn send_range(up: Upload, flash: &[u8], from: usize, reply: &mut [u8]) -> usize
    requires within { Within flash.now (start_of up.first.0) up.len }
    requires from_le_length { from ≤ prefix_length up + up.len }
    ensures { Sent result reply.old reply.new (take (length reply.old) (drop from (range_stream up flash.now))) }
{
    let body = read_range(up, flash);
    if up.prefix == 1 {
        put_both(&header(up), body, from, reply)
    } else {
        put(&body[from..], reply)
    }
}

// The next bytes of the chosen stream to the front of the reply, and how many they are. What it reads of a session is handed over one by one, as
// its promise names it.
pub fn send(
    board: Board,
    unerased: u32,
    up: Upload,
    flash: &[u8],
    place: u32,
    asked: u32,
    reply: &mut [u8],
) -> u32
    requires { Sendable board up flash.now place asked (length reply.old) }
    ensures { Sent result reply.old reply.new (next_of board unerased up flash.now place asked) }
{
    let from = place as usize;
    let room = &mut reply[..asked as usize];
    if up.choice == Upload::INFO_BYTES {
        send_info(board, unerased, from, room) as u32
    } else {
        send_range(up, flash, from, room) as u32
    }
}
