// The lines of the slots, detailed timings and descriptors, appended to a page.
#![tactic(auto)]

ghost use Rattle.std.specs.Prelude.{◌≡◌};
ghost use Rattle.page.specs.Page.{◌▷◌};
ghost use Rattle.crate_slot_lines.specs.Lines as lines;

use crate_record::{
    DetailedTiming, DetailedTimings, Limits, MonitorDescriptor, MonitorDescriptors,
    SecondaryTiming, SyncLine, SyncType,
};
use page::Page;

// ---- detailed timings

#[tactic(auto, using(page::specs::Laws::appends), unfolding(crate::specs::Lines::sync))]
fn sync(page: &mut Page, t: SyncType)
    ensures { page.new ≡ page.old ▷ lines.sync t }
{
    match t {
        SyncType::Composite { serrated, line } => match line {
            SyncLine::Green => {
                page.bytes(b" 0");
                page.flag(serrated);
                page.bytes(b" 0");
            }
            SyncLine::RGB => {
                page.bytes(b" 0");
                page.flag(serrated);
                page.bytes(b" 1");
            }
            SyncLine::Digital(p) => {
                page.bytes(b" 1");
                page.flag(serrated);
                shared_lines::polarity(page, p);
            }
        },
        SyncType::Separate {
            horizontal,
            vertical,
        } => {
            page.bytes(b" 2");
            shared_lines::polarity(page, horizontal);
            shared_lines::polarity(page, vertical);
        }
    }
}

#[tactic(auto, using(page::specs::Laws::appends), unfolding(crate::specs::Lines::detailed_line))]
fn detailed_line(page: &mut Page, d: DetailedTiming)
    ensures { page.new ≡ page.old ▷ lines.detailed_line d }
{
    shared_lines::axes(page, d.clock, d.across, d.down);
    page.float(d.size.width);
    page.float(d.size.height);
    shared_lines::border_to_stereo(page, d.border, d.interlaced, d.stereo);
    sync(page, d.sync);
    page.newline();
}

#[tactic(auto, using(page::specs::Laws::appends), unfolding(page::specs::Words::each, crate::specs::Lines::detailed_lines))]
pub fn detailed_lines(page: &mut Page, l: DetailedTimings)
    ensures { page.new ≡ page.old ▷ lines.detailed_lines l }
{
    for x in &l.items[..l.len.min(4)] {
        detailed_line(page, *x);
    }
}

// ---- descriptors

#[tactic(auto, using(page::specs::Laws::appends), unfolding(crate::specs::Lines::secondary))]
fn secondary(page: &mut Page, s: &[u8], t: SecondaryTiming)
    ensures { page.new ≡ page.old ▷ lines.secondary s.now t }
{
    match t {
        SecondaryTiming::None => page.bytes(b" none"),
        SecondaryTiming::GTF { start, c, m, k, j } => {
            page.bytes(b" gtf");
            page.field(start);
            page.float(c);
            page.float(m);
            page.float(k);
            page.float(j);
        }
        SecondaryTiming::Other { kind, data } => {
            page.bytes(b" other");
            shared_lines::raw(page, s, kind, data);
        }
    }
}

#[tactic(auto, using(page::specs::Laws::appends), unfolding(crate::specs::Lines::range_line))]
fn range_line(page: &mut Page, s: &[u8], l: Limits, t: SecondaryTiming)
    ensures { page.new ≡ page.old ▷ lines.range_line s.now l t }
{
    shared_lines::limits(page, l.vmin, l.vmax, l.hmin, l.hmax, l.clock);
    secondary(page, s, t);
    page.newline();
}

#[tactic(auto, using(page::specs::Laws::appends), unfolding(crate::specs::Lines::descriptor_line))]
fn descriptor_line(page: &mut Page, s: &[u8], t: MonitorDescriptor)
    ensures { page.new ≡ page.old ▷ lines.descriptor_line s.now t }
{
    match t {
        MonitorDescriptor::SerialNumber(d) => shared_lines::text_line(page, b"serial", d),
        MonitorDescriptor::OtherString(d) => shared_lines::text_line(page, b"text", d),
        MonitorDescriptor::RangeLimits { limits, secondary } => range_line(
            page, s, limits, secondary,
        ),
        MonitorDescriptor::MonitorName(d) => shared_lines::text_line(page, b"name", d),
        MonitorDescriptor::Undefined { tag, data } => shared_lines::raw_line(
            page,
            b"undefined",
            s,
            tag,
            data,
        ),
        MonitorDescriptor::ManufacturerDefined { tag, data } => shared_lines::raw_line(
            page, b"maker", s, tag, data,
        ),
    }
}

#[tactic(auto, using(page::specs::Laws::appends), unfolding(page::specs::Words::each, crate::specs::Lines::descriptor_lines))]
pub fn descriptor_lines(page: &mut Page, s: &[u8], l: MonitorDescriptors)
    ensures { page.new ≡ page.old ▷ lines.descriptor_lines s.now l }
{
    for x in &l.items[..l.len.min(3)] {
        descriptor_line(page, s, *x);
    }
}
