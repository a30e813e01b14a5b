// The block of a panel's text.
#![tactic(auto)]

ghost use Rattle.write_block.specs.Gives.{Written};
ghost use Rattle.panel_writing.specs.Answer.{Answered};

use standard_record::StandardRecord;

// The writer, over bytes whose number their type tells.
fn write(r: StandardRecord, bytes: &[u8; 39], out: &mut [u8]) -> u8
    ensures { Written r bytes.now out.old result out.new }
{
    match standard_writing::write_standard(r, bytes, out) {
        Ok(()) => 0,
        Err(refusal) => refusal.number(),
    }
}

// A number, which C is handed as it is: 0 and the block; or that of a refusal, which leaves the output as it was: 10 where that is not 128 bytes long, 19 where the text is not understood,
// 11 where no block gives its record.
pub fn block_of_text(text: &[u8], out: &mut [u8]) -> u8
    ensures { Answered text.now out.old result out.new }
{
    if out.len() != 128 {
        return 10;
    }
    let panel = panel_reading::read_panel(text);
    let bytes = panel.bytes;
    let reading = panel.reading;
    let end = reading.end;
    match end {
        Err(_) => 19,
        Ok(()) => write(reading.edid, &bytes, out),
    }
}
