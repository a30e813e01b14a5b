// What one slot of a block says: it is judged and read by the same look, but for the pairs of an fa slot, which are read where they are
// listed. Past the end of t every byte is 0.
#![tactic(auto)]

ghost use Rattle.std.specs.Prelude.{◌≡◌, cond, Ok, Err};
ghost use Rattle.bits.specs.Bytes.{part};
ghost use Rattle.standard_parts.specs.Text.{is_padded};
ghost use Rattle.standard_slots.specs.Said.{pairs_in, point_at, points_in, text_in, limits_in, range_in, raw_of, by_tag, said};
ghost use Rattle.standard_slots.specs.Answers.{of_points, of_slot};

use standard_parts::Structure;
use standard_record::{Descriptor, DetailedTiming, Limits, WhitePoint};
use steps::Span;
use tags::Tag;

// The white points of an fb slot. Two Options would say one point in two ways, and `one_slot` of specs/Answers.antt holds that one answer says it.
#[derive(Clone, Copy)]
pub enum Points {
    None,
    One(WhitePoint),
    Two(WhitePoint, WhitePoint),
}

// What a slot that is not refused says; an fa slot `Pairs` alone: an enum holds no list of six.
#[derive(Clone, Copy)]
pub enum Slot {
    Nothing,
    Timing(DetailedTiming),
    Pairs,
    Points(Points),
    Described(Descriptor),
}

// ---- the parts of a slot

#[tactic(auto, unfolding(crate::specs::Said::point_at))]
fn point_at(t: &[u8], k: u8) -> Option<WhitePoint>
    ensures { result ≡ point_at t.now k }
{
    let k = k as usize;
    standard_parts::point_of(
        bits::byte_at(t, k),
        bits::byte_at(t, k + 1),
        bits::byte_at(t, k + 2),
        bits::byte_at(t, k + 3),
        bits::byte_at(t, k + 4),
    )
}

fn points_in(t: &[u8]) -> Points
    ensures { of_points result ≡ points_in t.now }
{
    match (point_at(t, 5), point_at(t, 10)) {
        (None, None) => Points::None,
        (Some(p), None) | (None, Some(p)) => Points::One(p),
        (Some(p), Some(q)) => Points::Two(p, q),
    }
}

fn text_in(t: &[u8], at: u8) -> Span
    ensures { result ≡ text_in t.now at }
{
    Span {
        start: at as usize + 5,
        len: standard_parts::text_length(bits::part(t, 5, 13)),
    }
}

// Refusal 5 where anything but padding stands behind the text.
fn padded_text(t: &[u8], at: u8) -> Result<Span, u8>
    ensures { result ≡ cond (is_padded (part t.now 5 13) (text_in t.now at).len) (Ok (text_in t.now at)) (Err 5) }
{
    let text = text_in(t, at);
    if standard_parts::is_padded(bits::part(t, 5, 13), text.len) {
        Ok(text)
    } else {
        Err(5)
    }
}

fn limits_in(structure: Structure, t: &[u8]) -> Limits
    ensures { result ≡ limits_in structure t.now }
{
    standard_parts::limits_of(
        standard_parts::offsets_of(structure, bits::byte_at(t, 4)),
        bits::byte_at(t, 5),
        bits::byte_at(t, 6),
        bits::byte_at(t, 7),
        bits::byte_at(t, 8),
        bits::byte_at(t, 9),
    )
}

#[tactic(auto, unfolding(crate::specs::Said::range_in))]
fn range_in(structure: Structure, t: &[u8], at: u8) -> Descriptor
    ensures { result ≡ range_in structure t.now at }
{
    Descriptor::Range {
        limits: limits_in(structure, t),
        secondary: standard_parts::secondary_of(
            bits::byte_at(t, 10),
            bits::byte_at(t, 12),
            bits::byte_at(t, 13),
            bits::byte_at(t, 14),
            bits::byte_at(t, 15),
            bits::byte_at(t, 16),
            bits::byte_at(t, 17),
            Span {
                start: at as usize + 11,
                len: 7,
            },
        ),
    }
}

fn raw_of(tag: u8, run: Span) -> Descriptor
    ensures { result ≡ raw_of tag run }
{
    if tag < 0x10 {
        Descriptor::MakerDefined { tag, data: run }
    } else {
        Descriptor::Undefined { tag, data: run }
    }
}

// ---- the slot

// Err: the number of the refusal.
fn by_tag(structure: Structure, tag: Tag, t: &[u8], at: u8) -> Result<Slot, u8>
    ensures { of_slot (pairs_in structure t.now) result ≡ by_tag structure tag t.now at }
{
    match tag {
        Tag::Dummy => Ok(Slot::Nothing),
        Tag::Pairs => {
            standard_parts::closing_refusal(bits::byte_at(t, 17), true)?;
            Ok(Slot::Pairs)
        }
        Tag::Points => {
            let spaces = standard_parts::all_spaces(bits::part(t, 16, 2));
            standard_parts::closing_refusal(bits::byte_at(t, 15), spaces)?;
            Ok(Slot::Points(points_in(t)))
        }
        Tag::Name => Ok(Slot::Described(Descriptor::Name(padded_text(t, at)?))),
        Tag::Range => {
            let spaces = standard_parts::all_spaces(bits::part(t, 12, 6));
            standard_parts::range_refusal(bits::byte_at(t, 10), bits::byte_at(t, 11), spaces)?;
            Ok(Slot::Described(range_in(structure, t, at)))
        }
        Tag::Text => Ok(Slot::Described(Descriptor::Text(padded_text(t, at)?))),
        Tag::Serial => Ok(Slot::Described(Descriptor::Serial(padded_text(t, at)?))),
        Tag::Raw => {
            let run = Span {
                start: at as usize + 5,
                len: 13,
            };
            Ok(Slot::Described(raw_of(bits::byte_at(t, 3), run)))
        }
    }
}

// Err: the number of the refusal.
#[tactic(auto, unfolding(crate::specs::Said::said))]
pub fn said(structure: Structure, i: u8, t: &[u8], at: u8) -> Result<Slot, u8>
    ensures { of_slot (pairs_in structure t.now) result ≡ said structure i t.now at }
{
    if standard_timing::clock_in(t) != 0 {
        return match standard_timing::timing_in(t) {
            Some(d) => Ok(Slot::Timing(d)),
            None => Err(6),
        };
    }
    if i == 0 {
        return Err(3);
    }
    by_tag(structure, tags::tag_of(bits::byte_at(t, 3)), t, at)
}
