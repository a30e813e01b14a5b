// Reads a block from standard input and writes the 128 bytes that the writer makes of its standard reading: the same record, each byte as the
// writer has it. A block that the reading refuses is answered by the line `refuse`, number and place.
#![tactic(auto)]

use page::Page;
use standard_record::StandardRecord;
use std::io;
use steps::Refusal;

fn main(rt: HostRuntime) -> io::Result<()> {
    frames::answer_input(&mut rt.stdin(), &mut rt.stdout(), rewrite)
}

fn rewrite(out: &mut [u8; 4096], s: &[u8]) -> usize {
    let r = standard_reading::read_standard(s);
    let mut page = Page { out, at: 0 };
    match r.end {
        Err(f) => shared_lines::refuse_line(&mut page, f),
        Ok(()) => write(&mut page, s, r.edid),
    }
    page.at
}

// The block, or the writer's refusal, which no record that was read is given.
fn write(page: &mut Page, s: &[u8], edid: StandardRecord) {
    let mut block = [0u8; 128];
    match standard_writing::write_standard(edid, s, &mut block) {
        Ok(()) => page.bytes(&block),
        Err(refusal) => {
            let number = refusal.number();
            shared_lines::refuse_line(page, Refusal { number, at: 0 });
        }
    }
}
