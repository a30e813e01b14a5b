// The listing of the standard reading, written to a page that the caller lends.
#![tactic(auto)]

ghost use Rattle.std.specs.Prelude.{◌≡◌, take, drop};
ghost use Rattle.page.specs.Page.{◌▷◌};
ghost use Rattle.standard_lines.specs.Lines as lines;
ghost use Rattle.standard_lines.specs.Main.{main_lines};

use page::Page;
use standard_record::{
    Chromaticities, Depth, Display, DisplayType, Features, HeldPair, HeldPoint, ImageSize, Kind,
    Product, StandardReading, StandardRecord, StandardTimings, Verdict, VideoInput, Week,
    WhitePoints,
};

// A letter of the maker, or 0.
#[tactic(auto, using(page::specs::Laws::appends), unfolding(crate::specs::Lines::letter))]
fn letter(page: &mut Page, b: u8)
    ensures { page.new ≡ page.old ▷ lines.letter b }
{
    if b == 0 {
        page.bytes(b" 0");
    } else {
        page.space();
        page.put(b);
    }
}

#[tactic(auto, using(page::specs::Laws::appends), unfolding(crate::specs::Lines::numbers))]
fn numbers(page: &mut Page, code: u16, serial: u32, t: Week, year: u16)
    ensures { page.new ≡ page.old ▷ lines.numbers code serial t year }
{
    match t {
        Week::Made(week) => shared_lines::product_numbers(page, code, serial, week, year),
        Week::ModelYear => {
            page.field(code);
            page.field(serial);
            page.bytes(b" model");
            page.field(year);
            page.newline();
        }
    }
}

#[tactic(auto, using(page::specs::Laws::appends), unfolding(crate::specs::Lines::product_line))]
fn product_line(page: &mut Page, p: Product)
    ensures { page.new ≡ page.old ▷ lines.product_line p }
{
    page.bytes(b"product");
    letter(page, p.maker.0);
    letter(page, p.maker.1);
    letter(page, p.maker.2);
    numbers(page, p.code, p.serial, p.week, p.year);
}

// ---- display

#[tactic(auto, using(page::specs::Laws::appends), unfolding(crate::specs::Lines::depth))]
fn depth(page: &mut Page, t: Depth)
    ensures { page.new ≡ page.old ▷ lines.depth t }
{
    match t {
        Depth::Undefined => page.bytes(b" undefined"),
        Depth::Bits(n) => page.field(n),
        Depth::Reserved => page.bytes(b" reserved"),
    }
}

#[tactic(auto, using(page::specs::Laws::appends), unfolding(crate::specs::Lines::input_line))]
fn input_line(page: &mut Page, t: VideoInput)
    ensures { page.new ≡ page.old ▷ lines.input_line t }
{
    match t {
        VideoInput::Analog { level, setup, sync } => {
            page.bytes(b"analog");
            page.field(level);
            shared_lines::input_flags(
                page,
                setup,
                sync.serrated,
                sync.green,
                sync.composite,
                sync.separate,
            );
        }
        VideoInput::Digital { dfp } => shared_lines::digital_line(page, dfp),
        VideoInput::Interface { depth: d, code } => {
            page.bytes(b"digital");
            depth(page, d);
            page.field(code);
            page.newline();
        }
    }
}

#[tactic(auto, using(page::specs::Laws::appends), unfolding(crate::specs::Lines::size_line))]
fn size_line(page: &mut Page, t: ImageSize)
    ensures { page.new ≡ page.old ▷ lines.size_line t }
{
    match t {
        ImageSize::None => page.bytes(b"size none\n"),
        ImageSize::Some(s) => {
            page.bytes(b"size");
            page.field(s.width);
            page.field(s.height);
            page.newline();
        }
        ImageSize::Ratio(s) => {
            page.bytes(b"size ratio");
            page.field(s.width);
            page.field(s.height);
            page.newline();
        }
    }
}

#[tactic(auto, using(page::specs::Laws::appends), unfolding(crate::specs::Lines::gamma))]
fn gamma(page: &mut Page, t: Option<u16>)
    ensures { page.new ≡ page.old ▷ lines.gamma t }
{
    match t {
        None => page.bytes(b" none"),
        Some(g) => page.field(g),
    }
}

#[tactic(auto, using(page::specs::Laws::appends), unfolding(crate::specs::Lines::gamma_line))]
fn gamma_line(page: &mut Page, t: Option<u16>)
    ensures { page.new ≡ page.old ▷ lines.gamma_line t }
{
    page.bytes(b"gamma");
    gamma(page, t);
    page.newline();
}

fn kind_number(t: DisplayType) -> u8
    ensures { result ≡ lines.kind t }
{
    match t {
        DisplayType::Monochrome => 0,
        DisplayType::RGBColor => 1,
        DisplayType::OtherColor => 2,
        DisplayType::Undefined => 3,
    }
}

#[tactic(auto, using(page::specs::Laws::appends), unfolding(crate::specs::Lines::encodings))]
fn encodings(page: &mut Page, ycrcb444: bool, ycrcb422: bool)
    ensures { page.new ≡ page.old ▷ lines.encodings ycrcb444 ycrcb422 }
{
    if ycrcb422 {
        if ycrcb444 {
            page.bytes(b" e3");
        } else {
            page.bytes(b" e2");
        }
    } else {
        if ycrcb444 {
            page.bytes(b" e1");
        } else {
            page.bytes(b" e0");
        }
    }
}

#[tactic(auto, using(page::specs::Laws::appends), unfolding(crate::specs::Lines::features_by))]
fn features_by(page: &mut Page, t: Kind, f: Features)
    ensures { page.new ≡ page.old ▷ lines.features_by t f }
{
    match t {
        Kind::Typed(t) => {
            shared_lines::dpms_line(
                page,
                f.standby,
                f.suspend,
                f.lowpower,
                kind_number(t),
                f.srgb,
                f.preferred,
                f.gtf,
            );
        }
        Kind::Encodings { ycrcb444, ycrcb422 } => {
            page.bytes(b"dpms");
            page.flag(f.standby);
            page.flag(f.suspend);
            page.flag(f.lowpower);
            encodings(page, ycrcb444, ycrcb422);
            page.flag(f.srgb);
            page.flag(f.preferred);
            page.flag(f.gtf);
            page.newline();
        }
    }
}

#[tactic(auto, using(page::specs::Laws::appends), unfolding(crate::specs::Lines::features_line))]
fn features_line(page: &mut Page, f: Features)
    ensures { page.new ≡ page.old ▷ lines.features_line f }
{
    features_by(page, f.kind, f);
}

#[tactic(auto, using(page::specs::Laws::appends), unfolding(crate::specs::Lines::display_lines))]
fn display_lines(page: &mut Page, d: Display)
    ensures { page.new ≡ page.old ▷ lines.display_lines d }
{
    input_line(page, d.input);
    size_line(page, d.size);
    gamma_line(page, d.gamma);
    features_line(page, d.features);
}

// ---- colour

fn chroma_line(page: &mut Page, c: Chromaticities)
    ensures { page.new ≡ page.old ▷ lines.chroma_line c }
{
    page.bytes(b"chroma");
    page.field(c.red.x);
    page.field(c.red.y);
    page.field(c.green.x);
    page.field(c.green.y);
    page.field(c.blue.x);
    page.field(c.blue.y);
    page.field(c.white.x);
    page.field(c.white.y);
    page.newline();
}

fn white_line(page: &mut Page, p: HeldPoint)
    ensures { page.new ≡ page.old ▷ lines.white_line p }
{
    let w = p.point;
    page.bytes(b"white");
    page.field(w.index);
    page.field(w.place.x);
    page.field(w.place.y);
    gamma(page, w.gamma);
    page.field(p.slot);
    page.newline();
}

#[tactic(auto, using(page::specs::Laws::appends), unfolding(page::specs::Words::each, crate::specs::Lines::white_lines))]
fn white_lines(page: &mut Page, l: WhitePoints)
    ensures { page.new ≡ page.old ▷ lines.white_lines l }
{
    for x in &l.items[..l.len.min(6)] {
        white_line(page, *x);
    }
}

// ---- timings

fn standard_line(page: &mut Page, h: HeldPair)
    ensures { page.new ≡ page.old ▷ lines.standard_line h }
{
    let t = h.pair;
    page.bytes(b"standard");
    page.field(t.width);
    page.field(t.ratio.width);
    page.field(t.ratio.height);
    page.field(t.rate);
    page.field(h.slot);
    page.newline();
}

#[tactic(auto, using(page::specs::Laws::appends), unfolding(page::specs::Words::each, crate::specs::Lines::standard_lines))]
fn standard_lines(page: &mut Page, l: StandardTimings)
    ensures { page.new ≡ page.old ▷ lines.standard_lines l }
{
    for x in &l.items[..l.len.min(26)] {
        standard_line(page, *x);
    }
}

// ---- the whole

// Everything before the descriptors.
pub fn main_lines(page: &mut Page, e: StandardRecord)
    ensures { page.new ≡ page.old ▷ main_lines e }
{
    product_line(page, e.product);
    shared_lines::version_line(page, e.version.version, e.version.revision);
    display_lines(page, e.display);
    chroma_line(page, e.color.basic);
    white_lines(page, e.color.points);
    shared_lines::established_line(page, e.timings.established.items, e.timings.established.len);
    standard_lines(page, e.timings.standard);
    standard_slot_lines::detailed_lines(page, e.timings.detailed);
}

fn record_lines(page: &mut Page, s: &[u8], e: StandardRecord)
    ensures { page.new ≡ page.old ▷ lines.record_lines s.now e }
{
    main_lines(page, e);
    standard_slot_lines::descriptor_lines(page, s, e.descriptors);
    shared_lines::extensions_line(page, e.extensions);
}

#[tactic(auto, using(page::specs::Laws::appends), unfolding(crate::specs::Lines::judged_lines))]
fn judged_lines(page: &mut Page, s: &[u8], e: StandardRecord, end: Verdict)
    ensures { page.new ≡ page.old ▷ lines.judged_lines s.now e end }
{
    match end {
        Ok(()) => {
            page.bytes(b"accept\n");
            record_lines(page, s, e);
        }
        Err(f) => shared_lines::refuse_line(page, f),
    }
}

// Every listing fits a page: the first r bytes are all of it, and the rest of the page is as it was.
pub fn listing(out: &mut [u8; 4096], s: &[u8], t: StandardReading) -> usize
    ensures { (take result out.new ≡ lines.listing_of s.now t) × (drop result out.new ≡ drop result out.old) }
{
    let mut page = Page { out, at: 0 };
    judged_lines(&mut page, s, t.edid, t.end);
    page.at
}
