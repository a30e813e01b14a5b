// Reads at most 4,096 bytes of standard input, of which the first 128 are the panel's block and what follows is the reference block, and prints the name
// to show, its bytes as they stand. Where neither block has one, the line `refuse 18` is written to standard error, since a name could say the same.
#![tactic(auto)]

use std::io;
use std::io::{Eprint, Write};

fn main(rt: HostRuntime) -> io::Result<()> {
    let mut buffer = [0u8; 4096];
    let n = frames::fill(&mut rt.stdin(), &mut buffer)?;
    show(&mut rt.stdout(), &rt, &buffer[..n])
}

fn show<W: Write, E: Eprint>(output: &mut W, errors: &E, s: &[u8]) -> io::Result<()> {
    let cut = s.len().min(128);
    let panel = &s[0..cut];
    let reference = &s[cut..];
    if naming::number(panel, reference) == 18 {
        return eprintln!(errors; "refuse 18");
    }
    output.write_all(naming::name(panel, reference))?;
    output.write_all(b"\n")
}
