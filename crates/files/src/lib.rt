// The file formats as a host written in C or Rust calls them, in an archive of their own: a board needs none of them.
// Refusals are numbers here, since no enum can be handed over to C. `include/mullirim_files.h` declares these calls.
#![tactic(auto)]

ghost use Rattle.std.specs.Prelude.{◌+◌, ◌≤◌, ◌≡◌, length};
ghost use Rattle.suffix.specs.Suffix.{read_of};
ghost use Rattle.bundle.specs.Bundle.{part_of};
ghost use Rattle.bundle.specs.Bundle as Bundle;
ghost use Rattle.files.specs.Files.{told_read, Counts, told_bundle, at_host, suffix_written, bundle_written};

use bundle::Part;
use suffix::{Parts, Suffixed};

// A suffix that was read, with the bytes before it; or why it was refused, and zeros.
#[repr(C)]
#[derive(Clone, Copy, Default)]
pub struct SuffixFound {
    pub parts: Parts,
    pub refused: u16,
    pub length: usize,
}

// How many there are, of a bundle's images or of bytes that were written; or why there are none, and zero. The header has two names for it.
#[repr(C)]
#[derive(Clone, Copy)]
pub struct Counted {
    pub refused: u32,
    pub count: usize,
}

// What is counted, as the host has it, whatever it may be refused for.
impl<E: Into<u32>> From<Result<usize, E>> for Counted {
    ghost from_gives = { Counts E.converts };

    fn from(found: Result<usize, E>) -> Counted {
        match found {
            Ok(count) => Counted { refused: 0, count },
            Err(refusal) => Counted {
                refused: refusal.into(),
                count: 0,
            },
        }
    }
}

#[tactic(auto, unfolding(crate::specs::Files::told_read))]
#[unsafe(no_mangle)]
pub extern "C" fn mullirim_suffix_read(file: &[u8]) -> SuffixFound
    ensures { result ≡ told_read (read_of file.now) }
{
    match suffix::read(file) {
        Ok(Suffixed { parts, length }) => SuffixFound {
            parts,
            length,
            ..SuffixFound::default()
        },
        Err(refusal) => SuffixFound {
            refused: u16::from(refusal),
            ..SuffixFound::default()
        },
    }
}

#[tactic(auto, unfolding(crate::specs::Files::counted, crate::specs::Files::suffix_written))]
#[unsafe(no_mangle)]
pub extern "C" fn mullirim_suffix_write(file: &[u8], parts: Parts, buffer: &mut [u8]) -> Counted
    ensures { at_host result buffer.new ≡ suffix_written file.now parts buffer.old }
{
    Counted::from(suffix::write(file, parts, buffer))
}

#[tactic(auto, unfolding(crate::specs::Files::counted))]
#[unsafe(no_mangle)]
pub extern "C" fn mullirim_bundle_read(file: &[u8]) -> Counted
    ensures { result ≡ told_bundle (Bundle.read_of file.now) }
{
    Counted::from(bundle::read(file))
}

#[unsafe(no_mangle)]
pub extern "C" fn mullirim_bundle_image(file: &[u8], k: usize) -> Part
    ensures { (result ≡ part_of file.now k) × (result.from + result.length ≤ length file.now) }
{
    bundle::part_of(file, k)
}

#[tactic(auto, unfolding(crate::specs::Files::counted, crate::specs::Files::bundle_written))]
#[unsafe(no_mangle)]
pub extern "C" fn mullirim_bundle_write(
    lengths: &[u64],
    images: &[u8],
    buffer: &mut [u8],
) -> Counted
    ensures { at_host result buffer.new ≡ bundle_written lengths.now images.now buffer.old }
{
    Counted::from(bundle::write(lengths, images, buffer))
}
