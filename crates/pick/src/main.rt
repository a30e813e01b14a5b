// Reads at most 4,096 bytes of standard input, three limits in the first line and then a block, and prints which timing of it to show.
#![tactic(auto)]

use std::io;

fn main(rt: HostRuntime) -> io::Result<()> {
    frames::answer_input(&mut rt.stdin(), &mut rt.stdout(), pick_lines::listing)
}
