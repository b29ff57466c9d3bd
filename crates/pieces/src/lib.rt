// Pieces of a file or a text, laid into a lent buffer one behind the other.
#![tactic(auto)]

ghost use Rattle.std.specs.Prelude.{◌+◌, ◌≤◌, length};
ghost use Rattle.pieces.specs.Pieces.{Laid};

// Lays bytes from a place on, and answers the place behind them. Buffer and place are no struct: `Laid` speaks of a plain list, and each caller
// threads the place through two or three calls; a struct would be no plainer.
#[tactic(auto, using(std::proofs::lemmas::List::Edits::paste_more))]
pub fn put(bytes: &[u8], buffer: &mut [u8], at: usize) -> usize
    requires { at + length bytes.now ≤ length buffer.old }
    ensures { Laid buffer.old buffer.new at result bytes.now }
{
    // A loop, since the library's own copy would want memmove of whoever links the calls for files.
    for (i, &byte) in bytes.iter().enumerate() {
        buffer[at + i] = byte;
    }
    at + bytes.len()
}
