// Reads at most 4,096 bytes of standard input and prints the reading of them as a CTA-861 extension.
#![tactic(auto)]

use std::io;

fn main(rt: HostRuntime) -> io::Result<()> {
    frames::answer_input(&mut rt.stdin(), &mut rt.stdout(), cta_lines::listing)
}
