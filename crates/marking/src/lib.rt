// The marks of a block: what it holds, at fixed places, that the two readings take for different things. And the words that list them.
#![tactic(auto)]

ghost use Rattle.std.specs.Prelude.{◌≡◌, ◌||◌, take, drop};
ghost use Rattle.page.specs.Page.{◌▷◌};
ghost use Rattle.marking.specs.Marks.{clockless, tagged, active_low_zero, index_zero, gamma_ff, code_zero, codes_zero, marks_in};
ghost use Rattle.marking.specs.Laws.{with_slot, in_block};
ghost use Rattle.marking.specs.Lines as lines;

use page::Page;

// A clock with an active low byte of zero; tag 10; a white point of index 0; one of gamma ff; ratio code 0 in a listed pair below revision 3; revision 4 or
// above.
#[derive(Clone, Copy)]
pub struct Marks {
    pub active: bool,
    pub dummy: bool,
    pub index: bool,
    pub gamma: bool,
    pub ratio: bool,
    pub revision: bool,
}

// ---- pairs

// Ratio code 0, in a pair that is listed: 01 01 is not.
fn code_zero(low: u8, high: u8) -> bool
    ensures { result ≡ code_zero low high }
{
    (bits::digits(high, 6, 2) == 0) & !((low == 1) & (high == 1))
}

// Whether one of the n pairs from k on is such a pair.
fn codes_zero(t: &[u8], k: u8, n: u8) -> bool
    ensures { result ≡ codes_zero t.now k n }
{
    let mut found = false;
    for i in 0..n {
        let at = k as usize + 2 * i as usize;
        found |= code_zero(bits::byte_at(t, at), bits::byte_at(t, at + 1));
    }
    found
}

// ---- a slot: t is its 18 bytes

fn clockless(t: &[u8]) -> bool
    ensures { result ≡ clockless t.now }
{
    bits::word(bits::byte_at(t, 0), bits::byte_at(t, 1)) == 0
}

fn tagged(tag: u8, t: &[u8]) -> bool
    ensures { result ≡ tagged tag t.now }
{
    clockless(t) & (bits::byte_at(t, 3) == tag)
}

fn active_low_zero(t: &[u8]) -> bool
    ensures { result ≡ active_low_zero t.now }
{
    !clockless(t) & (bits::byte_at(t, 2) == 0)
}

fn index_zero(t: &[u8]) -> bool
    ensures { result ≡ index_zero t.now }
{
    tagged(0xfb, t) & ((bits::byte_at(t, 5) == 0) | (bits::byte_at(t, 10) == 0))
}

fn gamma_ff(t: &[u8]) -> bool
    ensures { result ≡ gamma_ff t.now }
{
    tagged(0xfb, t) & ((bits::byte_at(t, 9) == 0xff) | (bits::byte_at(t, 14) == 0xff))
}

// ---- the block

// The marks m and those of a slot; its ratio whatever the revision is.
#[tactic(auto, unfolding(crate::specs::Laws::with_slot))]
fn with_slot(m: Marks, t: &[u8]) -> Marks
    ensures { result ≡ with_slot m t.now }
{
    Marks {
        active: m.active | active_low_zero(t),
        dummy: m.dummy | tagged(0x10, t),
        index: m.index | index_zero(t),
        gamma: m.gamma | gamma_ff(t),
        ratio: m.ratio | (tagged(0xfa, t) & codes_zero(t, 5, 6)),
        revision: m.revision,
    }
}

// The marks m of the slots, with the revision and the eight pairs.
#[tactic(auto, unfolding(crate::specs::Laws::in_block))]
fn in_block(s: &[u8], m: Marks) -> Marks
    ensures { result ≡ in_block s.now m }
{
    Marks {
        active: m.active,
        dummy: m.dummy,
        index: m.index,
        gamma: m.gamma,
        ratio: (bits::byte_at(s, 19) < 3) & (codes_zero(s, 38, 8) | m.ratio),
        revision: 4 <= bits::byte_at(s, 19),
    }
}

// Past the end of s every byte is 0.
pub fn marks_of(s: &[u8]) -> Marks
    ensures { result ≡ marks_in s.now }
{
    let mut m = Marks {
        active: false,
        dummy: false,
        index: false,
        gamma: false,
        ratio: false,
        revision: false,
    };
    m = with_slot(m, bits::part(s, 54, 18));
    m = with_slot(m, bits::part(s, 72, 18));
    m = with_slot(m, bits::part(s, 90, 18));
    m = with_slot(m, bits::part(s, 108, 18));
    in_block(s, m)
}

// ---- the words

// A word on a line of its own where b holds.
#[tactic(auto, using(page::specs::Laws::appends), unfolding(crate::specs::Lines::line_if))]
fn line_if(page: &mut Page, b: bool, word: &[u8])
    ensures { page.new ≡ page.old ▷ lines.line_if b word.now }
{
    if b {
        page.bytes(word);
        page.newline();
    }
}

fn one_of(m: Marks) -> bool
    ensures { result ≡ lines.one_of m }
{
    m.active | m.dummy | m.index | m.gamma | m.ratio | m.revision
}

fn marks_lines(page: &mut Page, m: Marks)
    ensures { page.new ≡ page.old ▷ lines.marks_lines m }
{
    line_if(page, m.active, b"active-low-zero");
    line_if(page, m.dummy, b"tag-10");
    line_if(page, m.index, b"white-index-0");
    line_if(page, m.gamma, b"white-gamma-ff");
    line_if(page, m.ratio, b"old-ratio-0");
    line_if(page, m.revision, b"revision-4");
    line_if(page, !one_of(m), b"none");
}

// Lists the marks of a block. Every listing fits a page: the first r bytes are all of it, and the rest of the page is as it was.
pub fn listing(out: &mut [u8; 4096], block: &[u8]) -> usize
    ensures { (take result out.new ≡ lines.marks_lines (marks_in block.now)) × (drop result out.new ≡ drop result out.old) }
{
    let mut page = Page { out, at: 0 };
    marks_lines(&mut page, marks_of(block));
    page.at
}
