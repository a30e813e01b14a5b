// Writes many blocks anew in one run, to be held to tools/standard_writer.py. A frame of standard input is its length in 16 bits, low byte
// first, then as many bytes, at most 4,096; each is answered by a line, the refusal of its standard reading or `block` and the 128 bytes in hex
// that the writer makes of it, and then a line `--`.
#![tactic(auto)]

use page::Page;
use standard_record::StandardRecord;
use std::io;
use steps::Refusal;

fn main(rt: HostRuntime) -> io::Result<()> {
    frames::answer_frames(&mut rt.stdin(), &mut rt.stdout(), &rt, answer)
}

// The answer to a frame.
fn answer(out: &mut [u8; 4096], s: &[u8]) -> usize {
    let mut page = Page { out, at: 0 };
    rewrite(&mut page, s);
    page.bytes(b"--\n");
    page.at
}

fn rewrite(page: &mut Page, s: &[u8]) {
    let r = standard_reading::read_standard(s);
    match r.end {
        Err(f) => shared_lines::refuse_line(page, f),
        Ok(()) => block_line(page, s, r.edid),
    }
}

// The block, or the writer's refusal, which no record that was read is given.
fn block_line(page: &mut Page, s: &[u8], edid: StandardRecord) {
    let mut block = [0u8; 128];
    if let Err(refusal) = standard_writing::write_standard(edid, s, &mut block) {
        let number = refusal.number();
        return shared_lines::refuse_line(page, Refusal { number, at: 0 });
    }
    page.bytes(b"block ");
    page.hex_span(&block, 0, 128);
    page.newline();
}
