// Reads at most 4,096 bytes of standard input and prints the crate reading of them.
#![tactic(auto)]

use std::io;

fn main(rt: HostRuntime) -> io::Result<()> {
    frames::answer_input(&mut rt.stdin(), &mut rt.stdout(), list)
}

fn list(out: &mut [u8; 4096], s: &[u8]) -> usize {
    let r = crate_reading::read(s);
    crate_lines::listing(out, s, r)
}
