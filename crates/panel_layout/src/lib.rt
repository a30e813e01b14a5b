// Which line of a panel's text stands where.
#![tactic(auto)]

ghost use Rattle.std.specs.Prelude.{◌≤◌, ◌≡◌};
ghost use Rattle.text_lines.specs.Lines.{lines, counted};
ghost use Rattle.panel_forms.specs.Numbers.{kind_number};
ghost use Rattle.panel_layout.specs.Layout.{run, places_of, layout_of};
ghost use Rattle.panel_layout.specs.Along.{due, heads_due};

use panel_forms::LineKind;

// Of the lines that count: where the line of the established timings stands, where standard timings, detailed timings and descriptors begin, and where the
// line of the extensions stands.
#[derive(Clone, Copy)]
pub struct Places {
    pub established: usize,
    pub pairs: usize,
    pub timings: usize,
    pub entries: usize,
    pub extensions: usize,
}

// The kinds of the first lines, one of each.
const HEADS: [LineKind; 7] = [
    LineKind::Product,
    LineKind::Version,
    LineKind::Input,
    LineKind::Size,
    LineKind::Gamma,
    LineKind::Features,
    LineKind::Chroma,
];

// How many lines from a place on are of a kind, one after the other; at most so many.
fn run(s: &[u8], from: usize, kind: LineKind, most: usize) -> usize
    requires { (from ≤ 100) × (most ≤ 100) }
    ensures { (result ≡ run (kind_number kind) most (counted (lines s.now)) from) × (result ≤ most) }
{
    (from..from + most)
        .take_while(|&k| panel_forms::is_of(text_lines::content(s, k), kind))
        .count()
}

fn placed(s: &[u8]) -> Places
    ensures { (result ≡ places_of (counted (lines s.now))) × (result.extensions ≤ 100) }
{
    let established = 7 + run(s, 7, LineKind::White, 6);
    let pairs = established + 1;
    let timings = pairs + run(s, pairs, LineKind::Standard, 26);
    let entries = timings + run(s, timings, LineKind::Detailed, 4);
    Places {
        established,
        pairs,
        timings,
        entries,
        extensions: entries + run(s, entries, LineKind::Descriptor, 3),
    }
}

// Whether the line at k is of the kind that is due there; or else its place.
fn due(s: &[u8], k: usize, kind: LineKind) -> Result<(), usize>
    ensures { result ≡ due (kind_number kind) (counted (lines s.now)) k }
{
    if panel_forms::is_of(text_lines::content(s, k), kind) {
        Ok(())
    } else {
        Err(k)
    }
}

// Whether the first lines are due; or else the place of the first that is not.
fn heads(s: &[u8]) -> Result<(), usize>
    ensures { result ≡ heads_due (counted (lines s.now)) }
{
    for k in 0..7 {
        due(s, k, HEADS[k])?;
    }
    Ok(())
}

// Where the lines stand; or the place of the first line that is wrong.
pub fn layout(s: &[u8]) -> Result<Places, usize>
    ensures { result ≡ layout_of (counted (lines s.now)) }
{
    heads(s)?;
    let p = placed(s);
    due(s, p.established, LineKind::Established)?;
    due(s, p.extensions, LineKind::Extensions)?;
    let end = p.extensions + 1;
    if text_lines::content(s, end).is_empty() {
        Ok(p)
    } else {
        Err(end)
    }
}
