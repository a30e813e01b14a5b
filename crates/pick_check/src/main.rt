// Asked as `pick` is, prints of each index from 0 to 7 whether the checker accepts it: 1 of the timing to show, 0 of the others and past the list. A
// block that is refused, or a line that is no such line, is answered as there.
#![tactic(auto)]

use page::Page;
use picking::Limits;
use standard_record::DetailedTimings;
use std::io;

fn main(rt: HostRuntime) -> io::Result<()> {
    frames::answer_input(&mut rt.stdin(), &mut rt.stdout(), check)
}

fn check(out: &mut [u8; 4096], s: &[u8]) -> usize {
    let Some(asked) = pick_lines::limits_in(s) else {
        return pick_lines::listing(out, s);
    };
    let r = standard_reading::read_standard(&s[asked.block..]);
    let mut page = Page { out, at: 0 };
    match r.end {
        Err(f) => shared_lines::refuse_line(&mut page, f),
        Ok(()) => flags(&mut page, asked.limits, r.edid.timings.detailed),
    }
    page.at
}

fn flags(page: &mut Page, limits: Limits, list: DetailedTimings) {
    page.bytes(b"accepts");
    for i in 0..8 {
        page.flag(picking::accepts(limits, list, i));
    }
    page.newline();
}
