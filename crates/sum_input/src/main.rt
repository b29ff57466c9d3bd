// The sum of standard input, up to 65,536 bytes, as eight hexadecimal digits; or that it is too long.
#![tactic(auto)]

use print::Hex;
use std::io;

const MOST: usize = 65_536;

fn main(rt: HostRuntime) -> io::Result<()> {
    // One byte of room past the most tells a longer input from one that just fits. `bundle_list` has these two lines too: a function
    // that reads into an array which its caller makes would be no shorter.
    let mut input = [0; MOST + 1];
    let n = input::read_full(&mut rt.reader(), &mut input)?;
    if n > MOST {
        return println!(rt; "too long");
    }
    let sum = Hex(crc::sum(&input[..n]));
    println!(rt; "{sum}")
}
