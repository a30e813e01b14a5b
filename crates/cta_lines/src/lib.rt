// The listing of a CTA-861 extension, written to a page that the caller lends.
#![tactic(auto)]

ghost use Rattle.std.specs.Prelude.{◌≡◌, take, drop};
ghost use Rattle.page.specs.Page.{◌▷◌};
ghost use Rattle.cta_lines.specs.Lines as lines;

use cta_record::{Cta, CtaTimings, DataBlock, DataBlocks, VideoDescriptors};
use page::Page;
use standard_record::{DetailedTiming, Verdict};
use steps::Span;

#[tactic(auto, using(page::specs::Laws::appends), unfolding(crate::specs::Lines::head_line))]
fn head_line(page: &mut Page, revision: u8, offset: u8, support: u8)
    ensures { page.new ≡ page.old ▷ lines.head_line revision offset support }
{
    page.bytes(b"cta");
    page.field(revision);
    page.field(offset);
    page.field(support);
    page.newline();
}

#[tactic(auto, using(page::specs::Laws::appends), unfolding(crate::specs::Lines::video_line))]
fn video_line(page: &mut Page, l: VideoDescriptors)
    ensures { page.new ≡ page.old ▷ lines.video_line l }
{
    page.bytes(b"video");
    shared_lines::numbers(page, &l.items[..l.len.min(119)]);
    page.newline();
}

// ---- data blocks

// The bytes of a block; nothing where there are none.
#[tactic(auto, using(page::specs::Laws::appends), unfolding(crate::specs::Lines::run_field))]
fn run_field(page: &mut Page, s: &[u8], d: Span)
    ensures { page.new ≡ page.old ▷ lines.run_field s.now d }
{
    if d.len != 0 {
        page.space();
        page.hex_span(s, d.start, d.len);
    }
}

#[tactic(auto, using(page::specs::Laws::appends), unfolding(crate::specs::Lines::block_line))]
fn block_line(page: &mut Page, s: &[u8], b: DataBlock)
    ensures { page.new ≡ page.old ▷ lines.block_line s.now b }
{
    page.bytes(b"block");
    page.field(b.tag);
    run_field(page, s, b.run);
    page.newline();
}

#[tactic(auto, using(page::specs::Laws::appends), unfolding(page::specs::Words::each, crate::specs::Lines::block_lines))]
fn block_lines(page: &mut Page, s: &[u8], l: DataBlocks)
    ensures { page.new ≡ page.old ▷ lines.block_lines s.now l }
{
    for x in &l.items[..l.len.min(123)] {
        block_line(page, s, *x);
    }
}

// ---- timings

#[tactic(auto, using(page::specs::Laws::appends), unfolding(crate::specs::Lines::timing_line))]
fn timing_line(page: &mut Page, d: DetailedTiming)
    ensures { page.new ≡ page.old ▷ lines.timing_line d }
{
    standard_slot_lines::timing_fields(page, d);
    page.newline();
}

#[tactic(auto, using(page::specs::Laws::appends), unfolding(page::specs::Words::each, crate::specs::Lines::timing_lines))]
fn timing_lines(page: &mut Page, l: CtaTimings)
    ensures { page.new ≡ page.old ▷ lines.timing_lines l }
{
    for x in &l.items[..l.len.min(6)] {
        timing_line(page, *x);
    }
}

// ---- the whole

#[tactic(auto, using(page::specs::Laws::appends), unfolding(crate::specs::Lines::record_lines))]
fn record_lines(page: &mut Page, s: &[u8], c: Cta)
    ensures { page.new ≡ page.old ▷ lines.record_lines s.now c }
{
    head_line(page, c.revision, c.offset, c.support);
    video_line(page, c.video);
    block_lines(page, s, c.blocks);
    timing_lines(page, c.timings);
}

#[tactic(auto, using(page::specs::Laws::appends), unfolding(crate::specs::Lines::judged_lines))]
fn judged_lines(page: &mut Page, s: &[u8], c: Cta, end: Verdict)
    ensures { page.new ≡ page.old ▷ lines.judged_lines s.now c end }
{
    match end {
        Ok(()) => {
            page.bytes(b"accept\n");
            record_lines(page, s, c);
        }
        Err(f) => shared_lines::refuse_line(page, f),
    }
}

// Reads s and lists it. Every listing fits a page: the first r bytes are all of it, and the rest of the page is as it was.
pub fn listing(out: &mut [u8; 4096], s: &[u8]) -> usize
    ensures { (take result out.new ≡ lines.listing_of s.now) × (drop result out.new ≡ drop result out.old) }
{
    let t = cta_reading::read_cta(s);
    let mut page = Page { out, at: 0 };
    judged_lines(&mut page, s, t.cta, t.end);
    page.at
}
