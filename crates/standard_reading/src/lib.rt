// The standard reading of a block: judged in the order of the refusals, 7, 2, 8, 9, then slot after slot; each slot is looked at once.
#![tactic(auto)]

ghost use Rattle.std.specs.Prelude.{◌≡◌, ◌+◌, ◌*◌, ◌≤◌, ◌<◌, [], length, Ok, Err};
ghost use Rattle.fixed.specs.Fixed.{push};
ghost use Rattle.standard_record.specs.Filler.{blank};
ghost use Rattle.standard_verdict.specs.Verdict.{before_slots};
ghost use Rattle.standard_reading.specs.Block.{record_of, standard_of};
ghost use Rattle.standard_reading.specs.Lists.{ListsOf};
ghost use Rattle.standard_reading.specs.Told.{timings_told};
ghost use Rattle.standard_reading.specs.Filling.{Roomy, with_pairs, with_timings, with_slot};
ghost use Rattle.standard_slots.specs.Said.{pairs_at, pairs_in};
ghost use Rattle.standard_slots.specs.Answers.{of_slot};

use fixed::Fixed;
use shared_record::Version;
use standard_parts::Structure;
use standard_record::{
    BLANK_DETAILED, BLANK_HELD, BLANK_STANDARD, BLANK_WHITE, Color, Descriptors, DetailedTimings,
    Held, HeldPair, HeldPoint, HeldTiming, StandardReading, StandardRecord, StandardTimings,
    Timings, WhitePoints,
};
use standard_slots::{Points, Slot};
use steps::Refusal;

// What a block lists.
#[derive(Clone, Copy)]
struct Lists {
    standard: StandardTimings,
    detailed: DetailedTimings,
    points: WhitePoints,
    descriptors: Descriptors,
}

// ---- the answers

// The lists are those that the block says.
#[tactic(auto, unfolding(crate::specs::Block::record_of))]
fn record_of(s: &[u8], lists: Lists) -> StandardRecord
    requires { ListsOf s.now lists.points lists.standard lists.detailed lists.descriptors }
    ensures { result ≡ record_of s.now }
{
    StandardRecord {
        product: standard_head::product_in(s),
        version: Version {
            version: s[18],
            revision: s[19],
        },
        display: standard_head::display_in(s),
        color: Color {
            basic: standard_head::colors_in(s),
            points: lists.points,
        },
        timings: Timings {
            established: standard_parts::established_of(s[35], s[36], s[37]),
            standard: lists.standard,
            detailed: lists.detailed,
        },
        descriptors: lists.descriptors,
        extensions: s[126],
    }
}

fn refuse(f: Refusal) -> StandardReading
    ensures { result ≡ record { edid = blank; end = Err f } }
{
    StandardReading {
        edid: standard_record::blank_record(),
        end: Err(f),
    }
}

// ---- the slots

// One entry more, for which there is room: no test asks.
#[inline(always)]
#[tactic(auto, using(fixed::specs::Fixed::put_room, fixed::specs::Fixed::more_room), unfolding(fixed::specs::Fixed::push))]
fn put<T: Copy, const N: usize>(list: &mut Fixed<T, N>, item: T)
    requires { list.old.len < N }
    ensures { list.new ≡ push N list.old item }
{
    list.items[list.len] = item;
    list.len += 1;
}

// n pairs from the place `from` on, each onto the list.
fn list_pairs(
    list: &mut StandardTimings,
    structure: Structure,
    t: &[u8],
    from: usize,
    n: usize,
    slot: u16,
)
    requires { (from + 2 * n ≤ length t.now) × (length t.now ≤ 128) × (list.old.len + n ≤ 26) }
    ensures { list.new ≡ with_pairs list.old slot (pairs_at structure t.now from n) }
{
    for k in 0..n {
        let a = from + 2 * k;
        if let Some(pair) = standard_parts::pair_of(structure, t[a], t[a + 1]) {
            put(list, HeldPair { pair, slot });
        }
    }
}

impl Lists {
    // What a slot of the bytes t says; an fa slot's pairs are read here.
    fn list_slot(&mut self, says: Slot, structure: Structure, t: &[u8], slot: u16)
        requires { (length t.now ≡ 18) × Roomy self.old }
        ensures { self.new ≡ with_slot self.old slot (of_slot (pairs_in structure t.now) (Ok says)) }
    {
        match says {
            Slot::Nothing => {}
            Slot::Timing(timing) => put(&mut self.detailed, HeldTiming { timing, slot }),
            Slot::Pairs => list_pairs(&mut self.standard, structure, t, 5, 6, slot),
            Slot::Points(Points::None) => {}
            Slot::Points(Points::One(point)) => put(&mut self.points, HeldPoint { point, slot }),
            Slot::Points(Points::Two(p, q)) => {
                put(&mut self.points, HeldPoint { point: p, slot });
                put(&mut self.points, HeldPoint { point: q, slot });
            }
            Slot::Described(descriptor) => put(&mut self.descriptors, Held { descriptor, slot }),
        }
    }
}

// The eight pairs, then slot after slot. The length is required to have it at hand.
fn read_slots(s: &[u8]) -> StandardReading
    requires { (length s.now ≡ 128) × (before_slots s.now ≡ Ok tt) }
    ensures { result ≡ standard_of s.now }
{
    let structure = standard_parts::structure_of(s[19]);
    let mut lists = Lists {
        standard: StandardTimings {
            items: [BLANK_STANDARD; 26],
            len: 0,
        },
        detailed: DetailedTimings {
            items: [BLANK_DETAILED; 4],
            len: 0,
        },
        points: WhitePoints {
            items: [BLANK_WHITE; 6],
            len: 0,
        },
        descriptors: Descriptors {
            items: [BLANK_HELD; 3],
            len: 0,
        },
    };
    list_pairs(&mut lists.standard, structure, s, 38, 8, 0);
    for i in 0..4u8 {
        let at = 54 + 18 * i;
        let from = at as usize;
        let t = &s[from..from + 18];
        let slot = i as u16 + 1;
        let says = match standard_slots::said(structure, i, t, at) {
            Ok(says) => says,
            Err(number) => return refuse(Refusal { number, at: from }),
        };
        lists.list_slot(says, structure, t, slot);
    }
    let edid = record_of(s, lists);
    StandardReading { edid, end: Ok(()) }
}

// ---- the timings alone

// A timing onto the list, and nothing else of what a slot says.
#[inline(always)]
fn list_timing(list: &mut DetailedTimings, says: Slot, slot: u16)
    requires { list.old.len < 4 }
    ensures { list.new ≡ with_timings list.old slot (of_slot [] (Ok says)) }
{
    if let Slot::Timing(timing) = says {
        put(list, HeldTiming { timing, slot });
    }
}

// As `read_slots`, with no other list: of a list that is filled, and then not asked for, the compiler leaves nothing out.
#[inline(always)]
fn read_slot_timings(block: &[u8]) -> Result<DetailedTimings, Refusal>
    requires { (length block.now ≡ 128) × (before_slots block.now ≡ Ok tt) }
    ensures { result ≡ timings_told (standard_of block.now) }
{
    let structure = standard_parts::structure_of(block[19]);
    let mut list = DetailedTimings {
        items: [BLANK_DETAILED; 4],
        len: 0,
    };
    for k in 0..4u8 {
        let place = 54 + 18 * k;
        let at = place as usize;
        match standard_slots::said(structure, k, &block[at..at + 18], place) {
            Ok(says) => list_timing(&mut list, says, k as u16 + 1),
            Err(number) => return Err(Refusal { number, at }),
        }
    }
    Ok(list)
}

// The detailed timings of a block, or its refusal: what `read_standard` answers of these.
#[inline(always)]
pub fn read_timings(block: &[u8]) -> Result<DetailedTimings, Refusal>
    ensures { result ≡ timings_told (standard_of block.now) }
{
    match standard_verdict::before_slots(block) {
        Ok(()) => read_slot_timings(block),
        Err(f) => Err(f),
    }
}

// ---- all of it

pub fn read_standard(s: &[u8]) -> StandardReading
    ensures { result ≡ standard_of s.now }
{
    match standard_verdict::before_slots(s) {
        Err(f) => refuse(f),
        Ok(()) => read_slots(s),
    }
}
