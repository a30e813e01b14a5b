// The listing of the crate reading, written to a page that the caller lends.
#![tactic(auto)]

ghost use Rattle.std.specs.Prelude.{◌≡◌, take, drop};
ghost use Rattle.page.specs.Page.{◌▷◌};
ghost use Rattle.crate_lines.specs.Lines as lines;

use crate_record::{
    Chromaticities, DPMSFeatures, DisplayParameters, DisplayType, EDID, ImageSize,
    ProductInformation, Reading, StandardTiming, StandardTimings, VideoInput, WhitePoint,
    WhitePoints,
};
use page::Page;
use steps::Refusal;

#[tactic(auto, using(page::specs::Laws::appends), unfolding(crate::specs::Lines::product_line))]
fn product_line(page: &mut Page, p: ProductInformation)
    ensures { page.new ≡ page.old ▷ lines.product_line p }
{
    page.bytes(b"product");
    page.field(p.maker.0);
    page.field(p.maker.1);
    page.field(p.maker.2);
    shared_lines::product_numbers(page, p.code, p.serial, p.date.week, p.date.year);
}

// ---- display

#[tactic(auto, using(page::specs::Laws::appends), unfolding(crate::specs::Lines::input_line))]
fn input_line(page: &mut Page, t: VideoInput)
    ensures { page.new ≡ page.old ▷ lines.input_line t }
{
    match t {
        VideoInput::Analog { level, setup, sync } => {
            page.bytes(b"analog");
            page.float(level.high);
            page.float(level.low);
            shared_lines::input_flags(
                page,
                setup,
                sync.serrated,
                sync.green,
                sync.composite,
                sync.separate,
            );
        }
        VideoInput::Digital { dfp } => shared_lines::digital_line(page, dfp),
    }
}

#[tactic(auto, using(page::specs::Laws::appends), unfolding(crate::specs::Lines::size_line))]
fn size_line(page: &mut Page, t: Option<ImageSize>)
    ensures { page.new ≡ page.old ▷ lines.size_line t }
{
    match t {
        None => page.bytes(b"size none\n"),
        Some(s) => {
            page.bytes(b"size");
            page.float(s.width);
            page.float(s.height);
            page.newline();
        }
    }
}

#[tactic(auto, using(page::specs::Laws::appends), unfolding(crate::specs::Lines::gamma_line))]
fn gamma_line(page: &mut Page, t: Option<f32>)
    ensures { page.new ≡ page.old ▷ lines.gamma_line t }
{
    match t {
        None => page.bytes(b"gamma none\n"),
        Some(g) => {
            page.bytes(b"gamma");
            page.float(g);
            page.newline();
        }
    }
}

fn kind_number(t: DisplayType) -> u8
    ensures { result ≡ lines.kind t }
{
    match t {
        DisplayType::Monochrome => 0,
        DisplayType::RGBColor => 1,
        DisplayType::OtherColor => 2,
        DisplayType::Undefined => 3,
    }
}

#[tactic(auto, using(page::specs::Laws::appends), unfolding(crate::specs::Lines::features_line))]
fn features_line(page: &mut Page, f: DPMSFeatures)
    ensures { page.new ≡ page.old ▷ lines.features_line f }
{
    shared_lines::dpms_line(
        page,
        f.standby,
        f.suspend,
        f.lowpower,
        kind_number(f.kind),
        f.srgb,
        f.preferred,
        f.gtf,
    );
}

#[tactic(auto, using(page::specs::Laws::appends), unfolding(crate::specs::Lines::display_lines))]
fn display_lines(page: &mut Page, d: DisplayParameters)
    ensures { page.new ≡ page.old ▷ lines.display_lines d }
{
    input_line(page, d.input);
    size_line(page, d.size);
    gamma_line(page, d.gamma);
    features_line(page, d.dpms);
}

// ---- colour

fn chroma_line(page: &mut Page, c: Chromaticities)
    ensures { page.new ≡ page.old ▷ lines.chroma_line c }
{
    page.bytes(b"chroma");
    page.float(c.red.x);
    page.float(c.red.y);
    page.float(c.green.x);
    page.float(c.green.y);
    page.float(c.blue.x);
    page.float(c.blue.y);
    page.float(c.white.x);
    page.float(c.white.y);
    page.newline();
}

#[tactic(auto, using(page::specs::Laws::appends), unfolding(crate::specs::Lines::white_line))]
fn white_line(page: &mut Page, w: WhitePoint)
    ensures { page.new ≡ page.old ▷ lines.white_line w }
{
    page.bytes(b"white");
    page.field(w.index);
    page.float(w.x);
    page.float(w.y);
    page.float(w.gamma);
    page.newline();
}

#[tactic(auto, using(page::specs::Laws::appends), unfolding(page::specs::Words::each, crate::specs::Lines::white_lines))]
fn white_lines(page: &mut Page, l: WhitePoints)
    ensures { page.new ≡ page.old ▷ lines.white_lines l }
{
    for x in &l.items[..l.len.min(6)] {
        white_line(page, *x);
    }
}

// ---- timings

#[tactic(auto, using(page::specs::Laws::appends), unfolding(crate::specs::Lines::standard_line))]
fn standard_line(page: &mut Page, t: StandardTiming)
    ensures { page.new ≡ page.old ▷ lines.standard_line t }
{
    page.bytes(b"standard");
    page.field(t.width);
    page.float(t.ratio);
    page.field(t.rate);
    page.newline();
}

#[tactic(auto, using(page::specs::Laws::appends), unfolding(page::specs::Words::each, crate::specs::Lines::standard_lines))]
fn standard_lines(page: &mut Page, l: StandardTimings)
    ensures { page.new ≡ page.old ▷ lines.standard_lines l }
{
    for x in &l.items[..l.len.min(26)] {
        standard_line(page, *x);
    }
}

// ---- the whole

#[tactic(auto, using(page::specs::Laws::appends), unfolding(crate::specs::Lines::accept_line))]
fn accept_line(page: &mut Page, n: usize)
    ensures { page.new ≡ page.old ▷ lines.accept_line n }
{
    page.bytes(b"accept");
    page.field(n);
    page.newline();
}

fn edid_lines(page: &mut Page, s: &[u8], e: EDID)
    ensures { page.new ≡ page.old ▷ lines.edid_lines s.now e }
{
    product_line(page, e.product);
    shared_lines::version_line(page, e.version.version, e.version.revision);
    display_lines(page, e.display);
    chroma_line(page, e.color.basic);
    white_lines(page, e.color.points);
    shared_lines::established_line(page, e.timings.established.items, e.timings.established.len);
    standard_lines(page, e.timings.standard);
    crate_slot_lines::detailed_lines(page, e.timings.detailed);
    crate_slot_lines::descriptor_lines(page, s, e.descriptors);
    shared_lines::extensions_line(page, e.extensions);
}

#[tactic(auto, using(page::specs::Laws::appends), unfolding(crate::specs::Lines::ended_lines))]
fn ended_lines(page: &mut Page, s: &[u8], e: EDID, end: Result<usize, Refusal>)
    ensures { page.new ≡ page.old ▷ lines.ended_lines s.now e end }
{
    match end {
        Ok(n) => {
            accept_line(page, n);
            edid_lines(page, s, e);
        }
        Err(f) => shared_lines::refuse_line(page, f),
    }
}

// Every listing fits a page: the first r bytes are all of it, and the rest of the page is as it was.
pub fn listing(out: &mut [u8; 4096], s: &[u8], t: Reading) -> usize
    ensures { (take result out.new ≡ lines.listing_of s.now t) × (drop result out.new ≡ drop result out.old) }
{
    let mut page = Page { out, at: 0 };
    ended_lines(&mut page, s, t.edid, t.end);
    page.at
}
