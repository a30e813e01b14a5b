// The lines of the slots, detailed timings and descriptors, appended to a page.
#![tactic(auto)]

ghost use Rattle.std.specs.Prelude.{◌≡◌};
ghost use Rattle.page.specs.Page.{◌▷◌};
ghost use Rattle.standard_slot_lines.specs.Lines as lines;

use page::Page;
use standard_record::{
    Descriptor, Descriptors, DetailedTiming, DetailedTimings, Held, HeldTiming, Limits,
    SecondaryTiming, Sync, SyncLine,
};

// ---- detailed timings

pub fn line_number(t: SyncLine) -> u8
    ensures { result ≡ lines.line t }
{
    match t {
        SyncLine::Green => 0,
        SyncLine::RGB => 1,
    }
}

#[tactic(auto, using(page::specs::Laws::appends), unfolding(crate::specs::Lines::sync))]
fn sync(page: &mut Page, t: Sync)
    ensures { page.new ≡ page.old ▷ lines.sync t }
{
    match t {
        Sync::AnalogComposite { serrated, line } => {
            page.bytes(b" 0");
            page.flag(serrated);
            page.field(line_number(line));
        }
        Sync::BipolarAnalogComposite { serrated, line } => {
            page.bytes(b" 1");
            page.flag(serrated);
            page.field(line_number(line));
        }
        Sync::DigitalComposite { serrated, polarity } => {
            page.bytes(b" 2");
            page.flag(serrated);
            shared_lines::polarity(page, polarity);
        }
        Sync::DigitalSeparate {
            horizontal,
            vertical,
        } => {
            page.bytes(b" 3");
            shared_lines::polarity(page, horizontal);
            shared_lines::polarity(page, vertical);
        }
    }
}

#[tactic(auto, using(page::specs::Laws::appends), unfolding(crate::specs::Lines::timing_fields))]
pub fn timing_fields(page: &mut Page, d: DetailedTiming)
    ensures { page.new ≡ page.old ▷ lines.timing_fields d }
{
    shared_lines::axes(page, d.clock, d.across, d.down);
    page.field(d.size.width);
    page.field(d.size.height);
    shared_lines::border_to_stereo(page, d.border, d.interlaced, d.stereo);
    sync(page, d.sync);
}

#[tactic(auto, using(page::specs::Laws::appends), unfolding(crate::specs::Lines::detailed_line))]
pub fn detailed_line(page: &mut Page, t: HeldTiming)
    ensures { page.new ≡ page.old ▷ lines.detailed_line t }
{
    timing_fields(page, t.timing);
    page.field(t.slot);
    page.newline();
}

#[tactic(auto, using(page::specs::Laws::appends), unfolding(page::specs::Words::each, crate::specs::Lines::detailed_lines))]
pub fn detailed_lines(page: &mut Page, l: DetailedTimings)
    ensures { page.new ≡ page.old ▷ lines.detailed_lines l }
{
    for x in &l.items[..l.len.min(4)] {
        detailed_line(page, *x);
    }
}

// ---- descriptors

#[tactic(auto, using(page::specs::Laws::appends), unfolding(crate::specs::Lines::secondary))]
fn secondary(page: &mut Page, s: &[u8], t: SecondaryTiming)
    ensures { page.new ≡ page.old ▷ lines.secondary s.now t }
{
    match t {
        SecondaryTiming::None => page.bytes(b" none"),
        SecondaryTiming::GTF { start, c, m, k, j } => {
            page.bytes(b" gtf");
            page.field(start);
            page.field(c);
            page.field(m);
            page.field(k);
            page.field(j);
        }
        SecondaryTiming::Other { kind, data } => {
            page.bytes(b" other");
            shared_lines::raw(page, s, kind, data);
        }
    }
}

#[tactic(auto, using(page::specs::Laws::appends), unfolding(crate::specs::Lines::range_fields))]
fn range_fields(page: &mut Page, s: &[u8], l: Limits, t: SecondaryTiming)
    ensures { page.new ≡ page.old ▷ lines.range_fields s.now l t }
{
    page.bytes(b"range");
    page.field(l.vmin);
    page.field(l.vmax);
    page.field(l.hmin);
    page.field(l.hmax);
    page.field(l.clock);
    secondary(page, s, t);
}

#[tactic(auto, using(page::specs::Laws::appends), unfolding(crate::specs::Lines::descriptor_fields))]
pub fn descriptor_fields(page: &mut Page, s: &[u8], t: Descriptor)
    ensures { page.new ≡ page.old ▷ lines.descriptor_fields s.now t }
{
    match t {
        Descriptor::Serial(d) => shared_lines::text_fields(page, b"serial", d),
        Descriptor::Text(d) => shared_lines::text_fields(page, b"text", d),
        Descriptor::Range { limits, secondary } => range_fields(page, s, limits, secondary),
        Descriptor::Name(d) => shared_lines::text_fields(page, b"name", d),
        Descriptor::Undefined { tag, data } => shared_lines::raw_fields(
            page,
            b"undefined",
            s,
            tag,
            data,
        ),
        Descriptor::MakerDefined { tag, data } => shared_lines::raw_fields(
            page, b"maker", s, tag, data,
        ),
    }
}

#[tactic(auto, using(page::specs::Laws::appends), unfolding(crate::specs::Lines::held_line))]
fn held_line(page: &mut Page, s: &[u8], h: Held)
    ensures { page.new ≡ page.old ▷ lines.held_line s.now h }
{
    descriptor_fields(page, s, h.descriptor);
    page.field(h.slot);
    page.newline();
}

#[tactic(auto, using(page::specs::Laws::appends), unfolding(page::specs::Words::each, crate::specs::Lines::descriptor_lines))]
pub fn descriptor_lines(page: &mut Page, s: &[u8], l: Descriptors)
    ensures { page.new ≡ page.old ▷ lines.descriptor_lines s.now l }
{
    for x in &l.items[..l.len.min(3)] {
        held_line(page, s, *x);
    }
}
