// Reads at most 4,096 bytes of standard input and prints the standard reading of them.
#![tactic(auto)]

use std::io;

fn main(rt: HostRuntime) -> io::Result<()> {
    frames::answer_input(&mut rt.stdin(), &mut rt.stdout(), list)
}

fn list(out: &mut [u8; 4096], s: &[u8]) -> usize {
    let r = standard_reading::read_standard(s);
    standard_lines::listing(out, s, r)
}
