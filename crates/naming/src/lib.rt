// The name to show of a panel: the first fc text of its block, or, where it has none, that of the reference block.
#![tactic(auto)]

ghost use Rattle.std.specs.Prelude.{◌+◌, ◌≤◌, ◌≡◌, length};
ghost use Rattle.naming.specs.Name.{name_of, shown_of, number_of, place_of, IsPart, IsShown};
ghost use Rattle.naming.specs.Slots.{name_as, earlier};

use standard_record::Descriptor;
use standard_slots::Slot;
use steps::Span;

// Which block's is shown: three ways, so no Option.
#[derive(Clone, Copy)]
pub enum Shown {
    Panel(Span),
    Reference(Span),
    Neither,
}

// The text found before, else that of d, if it is a name.
fn earlier(name: Option<Span>, d: Descriptor) -> Option<Span>
    ensures { result ≡ earlier name (name_as d) }
{
    match (name, d) {
        (Some(t), _) => Some(t),
        (None, Descriptor::Name(t)) => Some(t),
        _ => None,
    }
}

// The first fc text of a block, by its place. Each slot is judged, also behind a name: a block that is refused has none.
fn name_in(s: &[u8]) -> Option<Span>
    ensures { result ≡ name_of s.now }
{
    let Ok(()) = standard_verdict::before_slots(s) else {
        return None;
    };
    let structure = standard_parts::structure_of(s[19]);
    let mut name = None;
    for i in 0..4u8 {
        let at = 54 + 18 * i;
        let from = at as usize;
        let says = match standard_slots::said(structure, i, &s[from..from + 18], at) {
            Ok(says) => says,
            Err(_) => return None,
        };
        if let Slot::Described(d) = says {
            name = earlier(name, d);
        }
    }
    name
}

// The reference block is read only where the panel's has no name.
fn found(panel: &[u8], reference: &[u8]) -> Shown
    ensures { result ≡ shown_of panel.now reference.now }
{
    if let Some(t) = name_in(panel) {
        return Shown::Panel(t);
    }
    match name_in(reference) {
        Some(t) => Shown::Reference(t),
        None => Shown::Neither,
    }
}

// ---- the answers

fn part_of(s: &[u8], t: Span) -> &[u8]
    requires { t.start + t.len ≤ length s.now }
    ensures { IsPart s.entry t result }
{
    let start = t.start;
    &s[start..start + t.len]
}

// The text: a part of the one block or of the other; where neither has one, the first zero bytes of the panel's.
pub fn name<'a>(panel: &'a [u8], reference: &'a [u8]) -> &'a [u8]
    ensures { IsShown panel.entry reference.entry (shown_of panel.now reference.now) result }
{
    match found(panel, reference) {
        Shown::Panel(t) => part_of(panel, t),
        Shown::Reference(t) => part_of(reference, t),
        Shown::Neither => part_of(panel, Span { start: 0, len: 0 }),
    }
}

// 0 where it is the panel's, 1 where it is the reference's, 18 where neither block has one.
pub fn number(panel: &[u8], reference: &[u8]) -> u8
    ensures { result ≡ number_of (shown_of panel.now reference.now) }
{
    match found(panel, reference) {
        Shown::Panel(_) => 0,
        Shown::Reference(_) => 1,
        Shown::Neither => 18,
    }
}

// Where in its block the text begins.
pub fn start(panel: &[u8], reference: &[u8]) -> usize
    ensures { result ≡ (place_of (shown_of panel.now reference.now)).start }
{
    match found(panel, reference) {
        Shown::Panel(t) => t.start,
        Shown::Reference(t) => t.start,
        Shown::Neither => 0,
    }
}
