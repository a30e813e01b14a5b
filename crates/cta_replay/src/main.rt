// Answers many blocks in one run, to be held to tools/cta_reader.py. A frame of standard input is its length in 16 bits, low byte
// first, then as many bytes, at most 4,096; for each frame the listing of a CTA-861 extension is written, then a line `--`.
#![tactic(auto)]

use page::Page;
use std::io;

fn main(rt: HostRuntime) -> io::Result<()> {
    frames::answer_frames(&mut rt.stdin(), &mut rt.stdout(), &rt, answer)
}

// The listing of a frame.
fn answer(out: &mut [u8; 4096], s: &[u8]) -> usize {
    let at = cta_lines::listing(out, s);
    let mut page = Page { out, at };
    page.bytes(b"--\n");
    page.at
}
