// The line of two blocks that says which name to show: whose it is, where it begins, how many bytes it has, and these.
#![tactic(auto)]

ghost use Rattle.std.specs.Prelude.{◌≡◌, take, drop};
ghost use Rattle.page.specs.Page.{◌▷◌};
ghost use Rattle.name_lines.specs.Lines as lines;

use page::Page;

// A space, and the bytes in hexadecimal; of none nothing.
#[tactic(auto, using(page::specs::Laws::appends), unfolding(crate::specs::Lines::run))]
fn run(page: &mut Page, name: &[u8])
    ensures { page.new ≡ page.old ▷ lines.run name.now }
{
    if !name.is_empty() {
        page.space();
        page.hex_span(name, 0, name.len());
    }
}

#[tactic(auto, using(page::specs::Laws::appends), unfolding(crate::specs::Lines::name_line))]
fn name_line(page: &mut Page, whose: &[u8], start: usize, name: &[u8])
    ensures { page.new ≡ page.old ▷ lines.name_line whose.now start name.now }
{
    page.bytes(whose);
    page.field(start);
    page.field(name.len());
    run(page, name);
    page.newline();
}

fn shown_line<'a>(page: &mut Page, panel: &'a [u8], reference: &'a [u8])
    ensures { page.new ≡ page.old ▷ lines.answer panel.now reference.now }
{
    let start = naming::start(panel, reference);
    let name = naming::name(panel, reference);
    match naming::number(panel, reference) {
        0 => name_line(page, b"panel", start, name),
        1 => name_line(page, b"reference", start, name),
        _ => page.bytes(b"refuse 18\n"),
    }
}

// Every line fits a page: the first r bytes are all of it, and the rest of the page is as it was.
pub fn listing<'a>(out: &mut [u8; 4096], panel: &'a [u8], reference: &'a [u8]) -> usize
    ensures { (take result out.new ≡ lines.answer panel.now reference.now) × (drop result out.new ≡ drop result out.old) }
{
    let mut page = Page { out, at: 0 };
    shown_line(&mut page, panel, reference);
    page.at
}
