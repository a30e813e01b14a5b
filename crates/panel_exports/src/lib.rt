// The block of a panel's text for C, which `panel_exports_c` hands over under its name, in an archive of its own.
#![tactic(auto)]

ghost use Rattle.panel_writing.specs.Answer.{Answered};

// 0 and the block; or the number of a refusal, 10, 11 or 19, and the bytes lent are as they were.
pub fn edid_block_of_text(text: &[u8], block: &mut [u8]) -> u32
    ensures { Answered text.now block.old result block.new }
{
    panel_writing::block_of_text(text, block) as u32
}
