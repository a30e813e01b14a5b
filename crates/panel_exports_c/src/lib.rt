// The answer of `panel_exports` under its C name: a `&[u8]` is a pointer and a length there.
#![tactic(auto)]

ghost use Rattle.panel_writing.specs.Answer.{Answered};

// 0 and the block; or the number of a refusal, 10, 11 or 19, and the bytes lent are as they were.
#[unsafe(no_mangle)]
pub extern "C" fn edid_block_of_text(text: &[u8], block: &mut [u8]) -> u32
    ensures { Answered text.now block.old result block.new }
{
    panel_exports::edid_block_of_text(text, block)
}
