// The list of a bundle's images, as text: how many there are, then a line for each with its number, its length and its sum.
#![tactic(auto)]

ghost use Rattle.std.specs.Prelude.{◌+◌, ◌*◌, ◌≤◌, ◌<◌, ◌≡◌, ◌++◌, length};
ghost use Rattle.pieces.specs.Pieces.{Laid};
ghost use Rattle.listing.specs.Listing.{most_bytes, images_word, space, feed, line_of, lines_from, listed, list_of, most_first, most_line, most_text};
ghost use Rattle.bundle.specs.Bundle.{most_images};
ghost use Rattle.print.specs.Decimal.{decimal_of};
ghost use Rattle.print.specs.Hex.{hex_of};
ghost use Rattle.crc.specs.Crc.{crc_of};

// The longest file that is listed.
const MOST: usize = 65_536;

// How many images are listed; none of a file that is refused or too long.
fn images(file: &[u8]) -> Option<usize>
    ensures { result ≡ listed file.now }
{
    if MOST < file.len() {
        return None;
    }
    bundle::read(file).ok()
}

// A number and the space behind it.
// Here and below text and place stay two parameters, as `pieces::put` and `print::decimal` have them: `Laid` speaks of a plain list.
fn number(n: u64, text: &mut [u8], at: usize) -> usize
    requires { at + length (decimal_of n) + 1 ≤ length text.old }
    ensures { Laid text.old text.new at result (decimal_of n ++ space) }
{
    let end = print::decimal(n, text, at);
    pieces::put(b" ", text, end)
}

// The sum of an image and the line's end.
fn sum(image: &[u8], text: &mut [u8], at: usize) -> usize
    requires { at + 9 ≤ length text.old }
    ensures { Laid text.old text.new at result (hex_of (crc_of image.now) ++ feed) }
{
    let digits = print::hex8(crc::sum(image));
    let end = pieces::put(&digits, text, at);
    pieces::put(b"\n", text, end)
}

// An image's line, for a number of up to two digits and a length of up to five.
#[tactic(auto, using(crate::proofs::Laws::two_digits, crate::proofs::Laws::short_number, crate::proofs::Laws::long_number))]
fn line(k: usize, image: &[u8], text: &mut [u8], at: usize) -> usize
    requires number { k < 100 }
    requires size { length image.now ≤ most_bytes }
    requires room { at + most_line ≤ length text.old }
    ensures laid { Laid text.old text.new at result (line_of k image.now) }
    ensures within { result ≤ at + most_line }
{
    let first = number(k as u64, text, at);
    let second = number(image.len() as u64, text, first);
    sum(image, text, second)
}

#[tactic(auto, using(crate::proofs::Laws::lines_none, crate::proofs::Laws::image_short, pieces::proofs::Laws::owed_none))]
fn lines(file: &[u8], count: usize, text: &mut [u8], at: usize) -> usize
    requires few { count ≤ most_images }
    requires size { length file.now ≤ most_bytes }
    requires room { at + most_line * count ≤ length text.old }
    ensures laid { Laid text.old text.new at result (lines_from file.now count 0) }
    ensures within { result ≤ at + most_line * count }
{
    let mut end = at;
    for k in 0..count {
        end = line(k, bundle::image(file, k), text, end);
    }
    end
}

#[tactic(auto, using(crate::proofs::Laws::two_digits))]
fn first_line(count: usize, text: &mut [u8]) -> usize
    requires number { count < 100 }
    requires room { most_first ≤ length text.old }
    ensures laid { Laid text.old text.new 0 result (images_word ++ decimal_of count ++ feed) }
    ensures within { result ≤ most_first }
{
    let word = pieces::put(b"images ", text, 0);
    let number = print::decimal(count as u64, text, word);
    pieces::put(b"\n", text, number)
}

// The whole text for any bytes, at the front of a buffer that is long enough for the longest one.
#[tactic(auto, using(crate::proofs::Laws::listed_short, crate::proofs::Laws::listed_few))]
pub fn list(file: &[u8], text: &mut [u8]) -> usize
    requires { most_text ≤ length text.old }
    ensures laid { Laid text.old text.new 0 result (list_of file.now) }
    ensures within { result ≤ most_text }
{
    let Some(count) = images(file) else {
        return pieces::put(b"refused\n", text, 0);
    };
    let first = first_line(count, text);
    lines(file, count, text, first)
}
