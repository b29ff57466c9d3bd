// The images of the bundle on standard input, up to 65,536 bytes, as a list; or that it is refused.
#![tactic(auto)]

use std::io;

fn main(rt: HostRuntime) -> io::Result<()> {
    // One byte of room past the longest file tells a longer input from one that just fits. `sum_input` has these two lines too: a
    // function that reads into an array which its caller makes would be no shorter.
    let mut input = [0u8; 65_537];
    let n = input::read_full(&mut rt.reader(), &mut input)?;
    let mut text = [0u8; 586];
    let count = listing::list(&input[..n], &mut text);
    rt.write_all(&text[..count])
}
