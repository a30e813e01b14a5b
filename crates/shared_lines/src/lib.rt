// The lines, and the parts of lines, that the listings of both readings have in common, appended to a page.
#![tactic(auto)]

ghost use Rattle.std.specs.Prelude.{◌≡◌};
ghost use Rattle.page.specs.Page.{◌▷◌};
ghost use Rattle.page.specs.Words.{field8, each};
ghost use Rattle.shared_lines.specs.Lines as lines;

use page::Page;
use steps::{Refusal, Span};
use timing::{Across, Border, Down, StereoType, SyncPolarity};

// ---- the head of a block

// What follows the maker in the line of the product.
#[tactic(auto, using(page::specs::Laws::appends), unfolding(crate::specs::Lines::product_numbers))]
pub fn product_numbers(page: &mut Page, code: u16, serial: u32, week: u8, year: u16)
    ensures { page.new ≡ page.old ▷ lines.product_numbers code serial week year }
{
    page.field(code);
    page.field(serial);
    page.field(week);
    page.field(year);
    page.newline();
}

#[tactic(auto, using(page::specs::Laws::appends), unfolding(crate::specs::Lines::version_line))]
pub fn version_line(page: &mut Page, version: u8, revision: u8)
    ensures { page.new ≡ page.old ▷ lines.version_line version revision }
{
    page.bytes(b"version");
    page.field(version);
    page.field(revision);
    page.newline();
}

// What follows the levels of an analog input.
#[tactic(auto, using(page::specs::Laws::appends), unfolding(crate::specs::Lines::input_flags))]
pub fn input_flags(
    page: &mut Page,
    setup: bool,
    serrated: bool,
    green: bool,
    composite: bool,
    separate: bool,
)
    ensures { page.new ≡ page.old ▷ lines.input_flags setup serrated green composite separate }
{
    page.flag(setup);
    page.flag(serrated);
    page.flag(green);
    page.flag(composite);
    page.flag(separate);
    page.newline();
}

#[tactic(auto, using(page::specs::Laws::appends), unfolding(crate::specs::Lines::digital_line))]
pub fn digital_line(page: &mut Page, dfp: bool)
    ensures { page.new ≡ page.old ▷ lines.digital_line dfp }
{
    page.bytes(b"digital");
    page.flag(dfp);
    page.newline();
}

// `kind` is the number of the display's type.
pub fn dpms_line(
    page: &mut Page,
    standby: bool,
    suspend: bool,
    lowpower: bool,
    kind: u8,
    srgb: bool,
    preferred: bool,
    gtf: bool,
)
    ensures { page.new ≡ page.old ▷ lines.dpms_line standby suspend lowpower kind srgb preferred gtf }
{
    page.bytes(b"dpms");
    page.flag(standby);
    page.flag(suspend);
    page.flag(lowpower);
    page.field(kind);
    page.flag(srgb);
    page.flag(preferred);
    page.flag(gtf);
    page.newline();
}

// Each byte of s in decimal.
#[tactic(auto, using(page::specs::Laws::appends), unfolding(page::specs::Words::each))]
pub fn numbers(page: &mut Page, s: &[u8])
    ensures { page.new ≡ page.old ▷ each field8 s.now }
{
    for x in s {
        page.field(*x);
    }
}

// The numbers of the flags that are set: the first len of items.
pub fn established_line(page: &mut Page, items: [u8; 17], len: usize)
    ensures { page.new ≡ page.old ▷ lines.established_line items len }
{
    page.bytes(b"established");
    numbers(page, &items[..len.min(17)]);
    page.newline();
}

// ---- a detailed timing

// Its clock and its two axes: active, front porch, sync and back porch, across before down.
pub fn axes(page: &mut Page, clock: u32, a: Across, d: Down)
    ensures { page.new ≡ page.old ▷ lines.axes clock a d }
{
    page.bytes(b"detailed");
    page.field(clock);
    page.field(a.active.0);
    page.field(d.active.0);
    page.field(a.front.0);
    page.field(d.front.0);
    page.field(a.sync.0);
    page.field(d.sync.0);
    page.field(a.back.0);
    page.field(d.back.0);
}

pub fn stereo_number(t: StereoType) -> u8
    ensures { result ≡ lines.stereo t }
{
    match t {
        StereoType::None => 0,
        StereoType::SequentialRightSync => 1,
        StereoType::SequentialLeftSync => 2,
        StereoType::InterleavedLinesRightEven => 3,
        StereoType::InterleavedLinesLeftEven => 4,
        StereoType::Interleaved4Way => 5,
        StereoType::SideBySide => 6,
    }
}

// What stands between its size and its sync.
#[tactic(auto, using(page::specs::Laws::appends), unfolding(crate::specs::Lines::border_to_stereo))]
pub fn border_to_stereo(page: &mut Page, b: Border, interlaced: bool, t: StereoType)
    ensures { page.new ≡ page.old ▷ lines.border_to_stereo b interlaced t }
{
    let stereo = stereo_number(t);
    page.field(b.across.0);
    page.field(b.down.0);
    page.flag(interlaced);
    page.field(stereo);
}

#[tactic(auto, using(page::specs::Laws::appends), unfolding(crate::specs::Lines::polarity))]
pub fn polarity(page: &mut Page, p: SyncPolarity)
    ensures { page.new ≡ page.old ▷ lines.polarity p }
{
    match p {
        SyncPolarity::Positive => page.bytes(b" 1"),
        SyncPolarity::Negative => page.bytes(b" 0"),
    }
}

// ---- a descriptor

#[tactic(auto, using(page::specs::Laws::appends), unfolding(crate::specs::Lines::text_fields))]
pub fn text_fields(page: &mut Page, word: &[u8], d: Span)
    ensures { page.new ≡ page.old ▷ lines.text_fields word.now d }
{
    page.bytes(word);
    page.field(d.start);
    page.field(d.len);
}

#[tactic(auto, using(page::specs::Laws::appends), unfolding(crate::specs::Lines::text_line))]
pub fn text_line(page: &mut Page, word: &[u8], d: Span)
    ensures { page.new ≡ page.old ▷ lines.text_line word.now d }
{
    text_fields(page, word, d);
    page.newline();
}

#[tactic(auto, using(page::specs::Laws::appends), unfolding(crate::specs::Lines::raw))]
pub fn raw(page: &mut Page, s: &[u8], k: u8, d: Span)
    ensures { page.new ≡ page.old ▷ lines.raw s.now k d }
{
    page.field(k);
    page.space();
    page.hex_span(s, d.start, d.len.min(13));
}

#[tactic(auto, using(page::specs::Laws::appends), unfolding(crate::specs::Lines::raw_fields))]
pub fn raw_fields(page: &mut Page, what: &[u8], s: &[u8], tag: u8, d: Span)
    ensures { page.new ≡ page.old ▷ lines.raw_fields what.now s.now tag d }
{
    page.bytes(what);
    raw(page, s, tag, d);
}

#[tactic(auto, using(page::specs::Laws::appends), unfolding(crate::specs::Lines::raw_line))]
pub fn raw_line(page: &mut Page, word: &[u8], s: &[u8], tag: u8, d: Span)
    ensures { page.new ≡ page.old ▷ lines.raw_line word.now s.now tag d }
{
    raw_fields(page, word, s, tag, d);
    page.newline();
}

// The five numbers of a range, as the crate's listing has them; the standard reading's rates go up to 510.
#[tactic(auto, using(page::specs::Laws::appends), unfolding(crate::specs::Lines::limits))]
pub fn limits(page: &mut Page, vmin: u8, vmax: u8, hmin: u32, hmax: u32, clock: u32)
    ensures { page.new ≡ page.old ▷ lines.limits vmin vmax hmin hmax clock }
{
    page.bytes(b"range");
    page.field(vmin);
    page.field(vmax);
    page.field(hmin);
    page.field(hmax);
    page.field(clock);
}

// ---- the end

pub fn extensions_line(page: &mut Page, k: u8)
    ensures { page.new ≡ page.old ▷ lines.extensions_line k }
{
    page.bytes(b"extensions");
    page.field(k);
    page.newline();
}

#[tactic(auto, using(page::specs::Laws::appends), unfolding(crate::specs::Lines::refuse_line))]
pub fn refuse_line(page: &mut Page, f: Refusal)
    ensures { page.new ≡ page.old ▷ lines.refuse_line f }
{
    page.bytes(b"refuse");
    page.field(f.number);
    page.field(f.at);
    page.newline();
}
