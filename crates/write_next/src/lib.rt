// The next entry of each list, if it has the number of a slot. It is handed over beside its place and the list's length: no call takes a list.
#![tactic(auto)]

ghost use Rattle.std.specs.Prelude.{◌≡◌};
ghost use Rattle.fixed.specs.Gather.{when};
ghost use Rattle.standard_slots.specs.Said.{of_point};
ghost use Rattle.standard_slots.specs.Answers.{of_points};
ghost use Rattle.write_next.specs.Next.{of_timing, of_descriptor, own, two_of};

use standard_record::{
    Descriptor, DetailedTiming, Held, HeldPair, HeldPoint, HeldTiming, WhitePoint,
};
use standard_slots::Points;

// Whether the place k is in a list of that length and size, and the entry there has the number n.
fn own(k: usize, len: usize, size: usize, slot: u16, n: u16) -> bool
    ensures { result ≡ own k len size slot n }
{
    k < len.min(size) && slot == n
}

pub fn next_timing(h: HeldTiming, k: usize, len: usize, n: u16) -> Option<DetailedTiming>
    ensures { of_timing result ≡ when (own k len 4 h.slot n) h.timing }
{
    if own(k, len, 4, h.slot, n) {
        Some(h.timing)
    } else {
        None
    }
}

pub fn pair_ahead(h: HeldPair, k: usize, len: usize, n: u16) -> bool
    ensures { result ≡ own k len 26 h.slot n }
{
    own(k, len, 26, h.slot, n)
}

pub fn next_point(h: HeldPoint, k: usize, len: usize, n: u16) -> Option<WhitePoint>
    ensures { of_point result ≡ when (own k len 6 h.slot n) h.point }
{
    if own(k, len, 6, h.slot, n) {
        Some(h.point)
    } else {
        None
    }
}

// The second only behind the first.
pub fn two_points(p: Option<WhitePoint>, q: Option<WhitePoint>) -> Points
    ensures { of_points result ≡ two_of (of_point p) (of_point q) }
{
    match (p, q) {
        (None, _) => Points::None,
        (Some(a), None) => Points::One(a),
        (Some(a), Some(b)) => Points::Two(a, b),
    }
}

pub fn next_descriptor(h: Held, k: usize, len: usize, n: u16) -> Option<Descriptor>
    ensures { of_descriptor result ≡ when (own k len 3 h.slot n) h.descriptor }
{
    if own(k, len, 3, h.slot, n) {
        Some(h.descriptor)
    } else {
        None
    }
}
