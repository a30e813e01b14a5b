// Reads at most 4,096 bytes of standard input and prints the text of the panel.
#![tactic(auto)]

use std::io;

fn main(rt: HostRuntime) -> io::Result<()> {
    frames::answer_input(&mut rt.stdin(), &mut rt.stdout(), print)
}

fn print(out: &mut [u8; 4096], s: &[u8]) -> usize {
    let r = standard_reading::read_standard(s);
    panel_lines::panel(out, s, r)
}
