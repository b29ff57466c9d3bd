// Plays the desk examples, a script on standard input, through the loader.
// A program of its own, since each program here has one stored input and one output.
#![tactic(auto)]

use std::io;

fn main(rt: HostRuntime) -> io::Result<()> {
    script::play_input(&rt, &mut rt.reader())?;
    Ok(())
}
