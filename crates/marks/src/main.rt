// Reads at most 4,096 bytes of standard input and prints the marks of the block that they are: what the two readings take for different things.
#![tactic(auto)]

use std::io;

fn main(rt: HostRuntime) -> io::Result<()> {
    frames::answer_input(&mut rt.stdin(), &mut rt.stdout(), marking::listing)
}
