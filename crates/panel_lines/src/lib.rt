// The text of a panel, written to a page that the caller lends.
#![tactic(auto)]

ghost use Rattle.std.specs.Prelude.{min, ◌≡◌, take, drop};
ghost use Rattle.page.specs.Page.{◌▷◌};
ghost use Rattle.page.specs.Words.{each};
ghost use Rattle.panel_lines.specs.Lines as lines;

use page::Page;
use standard_record::{Descriptor, Descriptors, Held, StandardReading, StandardRecord, Verdict};
use steps::Span;

// ---- a text

#[tactic(auto, using(page::specs::Laws::appends), unfolding(crate::specs::Lines::text_byte))]
fn text_byte(page: &mut Page, b: u8)
    ensures { page.new ≡ page.old ▷ lines.text_byte b }
{
    if text_words::is_plain(b) {
        page.put(b);
    } else {
        page.bytes(b"\\x");
        page.hex_span(&[b], 0, 1);
    }
}

#[tactic(auto, using(page::specs::Laws::appends), unfolding(page::specs::Words::each))]
fn text_bytes(page: &mut Page, t: &[u8])
    ensures { page.new ≡ page.old ▷ each lines.text_byte t.now }
{
    for b in t {
        text_byte(page, *b);
    }
}

#[tactic(auto, using(page::specs::Laws::appends), unfolding(crate::specs::Lines::quoted))]
fn quoted(page: &mut Page, t: &[u8])
    ensures { page.new ≡ page.old ▷ lines.quoted t.now }
{
    page.put(b'"');
    text_bytes(page, t);
    page.put(b'"');
}

// ---- a descriptor

// The bytes of a text, of which a slot holds 13 at most.
fn text_of(s: &[u8], d: Span) -> &[u8]
    ensures { result.now ≡ take (min d.len 13) (drop d.start s.now) }
{
    let rest = &s[d.start.min(s.len())..];
    &rest[..d.len.min(13).min(rest.len())]
}

#[tactic(auto, using(page::specs::Laws::appends), unfolding(crate::specs::Lines::quoted_fields))]
fn quoted_fields(page: &mut Page, word: &[u8], s: &[u8], d: Span)
    ensures { page.new ≡ page.old ▷ lines.quoted_fields word.now s.now d }
{
    page.bytes(word);
    page.space();
    quoted(page, text_of(s, d));
}

#[tactic(auto, using(page::specs::Laws::appends), unfolding(crate::specs::Lines::entry_fields))]
fn entry_fields(page: &mut Page, s: &[u8], t: Descriptor)
    ensures { page.new ≡ page.old ▷ lines.entry_fields s.now t }
{
    match t {
        Descriptor::Serial(d) => quoted_fields(page, b"serial", s, d),
        Descriptor::Text(d) => quoted_fields(page, b"text", s, d),
        Descriptor::Name(d) => quoted_fields(page, b"name", s, d),
        _ => standard_slot_lines::descriptor_fields(page, s, t),
    }
}

#[tactic(auto, using(page::specs::Laws::appends), unfolding(crate::specs::Lines::entry_line))]
fn entry_line(page: &mut Page, s: &[u8], h: Held)
    ensures { page.new ≡ page.old ▷ lines.entry_line s.now h }
{
    entry_fields(page, s, h.descriptor);
    page.field(h.slot);
    page.newline();
}

#[tactic(auto, using(page::specs::Laws::appends), unfolding(page::specs::Words::each, crate::specs::Lines::entry_lines))]
fn entry_lines(page: &mut Page, s: &[u8], l: Descriptors)
    ensures { page.new ≡ page.old ▷ lines.entry_lines s.now l }
{
    for x in &l.items[..l.len.min(3)] {
        entry_line(page, s, *x);
    }
}

// ---- the whole

#[tactic(auto, using(page::specs::Laws::appends), unfolding(crate::specs::Lines::panel_lines))]
fn panel_lines(page: &mut Page, s: &[u8], e: StandardRecord)
    ensures { page.new ≡ page.old ▷ lines.panel_lines s.now e }
{
    standard_lines::main_lines(page, e);
    entry_lines(page, s, e.descriptors);
    shared_lines::extensions_line(page, e.extensions);
}

#[tactic(auto, using(page::specs::Laws::appends), unfolding(crate::specs::Lines::judged_text))]
fn judged_text(page: &mut Page, s: &[u8], e: StandardRecord, end: Verdict)
    ensures { page.new ≡ page.old ▷ lines.judged_text s.now e end }
{
    match end {
        Ok(()) => panel_lines(page, s, e),
        Err(f) => shared_lines::refuse_line(page, f),
    }
}

// Every text fits a page: the first r bytes are all of it, and the rest of the page is as it was.
pub fn panel(out: &mut [u8; 4096], s: &[u8], t: StandardReading) -> usize
    ensures { (take result out.new ≡ lines.panel_text s.now t) × (drop result out.new ≡ drop result out.old) }
{
    let mut page = Page { out, at: 0 };
    judged_text(&mut page, s, t.edid, t.end);
    page.at
}
