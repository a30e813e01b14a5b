// The block of a standard record: the front, the eight pairs, then slot after slot what the next entries of the four lists make.
// A list is used up in order: a record whose entries stand otherwise has some left at the end, and is refused.
#![tactic(auto)]

ghost use Rattle.std.specs.Prelude.{◌≡◌, ℕ, ◌+◌, ◌≤◌, min, List, [], ◌∷◌, ◌++◌, length, take, nat_le, nat_lt};
ghost use Rattle.std.proofs.Math.Seq.{paste};
ghost use Rattle.standard_record.specs.Seen.{seen};
ghost use Rattle.write_block.specs.Taken.{first, taken, eight};
ghost use Rattle.write_block.specs.Holds.{slot_from};
ghost use Rattle.write_block.specs.Leaves.{pairs_slot};
ghost use Rattle.fixed.specs.Gather.{gather};
ghost use Rattle.standard_parts.specs.Structure.{structure_of};
ghost use Rattle.standard_parts.specs.declared.Structure.{Structure};
ghost use Rattle.standard_slots.specs.Said.{four};
ghost use Rattle.standard_slots.specs.Answers.{of_points};
ghost use Rattle.write_next.specs.Next.{of_descriptor};
ghost use Rattle.write_pairs.specs.Pairs.{pairs_bytes};
ghost use Rattle.write_head.specs.Front.{front_bytes};
ghost use Rattle.write_block.specs.Shown.{front_of};
ghost use Rattle.write_block.specs.Gives.{Written};
ghost use Rattle.standard_writing.specs.Filled.{SlotsFit, FrontFit, Filled};
ghost use Rattle.standard_writing.specs.Refusals.{refusal_number, told};
ghost use Rattle.standard_writing.specs.Places.{ahead, Small, Turned, UsedUp, many};

use standard_parts::Structure;
use standard_record::{Descriptor, DetailedTiming, StandardRecord, StandardTimings};
use standard_slots::Points;
use write_leaf::Leaf;
use write_pairs::PairsBytes;

// How many entries of each list are used up.
#[derive(Clone, Copy)]
pub struct Place {
    pub timed: usize,
    pub listed: usize,
    pub pointed: usize,
    pub entered: usize,
}

// The bytes of a slot, and where the lists stand behind it.
#[derive(Drop)]
struct Turn {
    slot: Leaf<18>,
    after: Place,
}

// What the front comes to. No Option: the slots are filled, and judged, whether the front fits or not.
#[derive(Clone, Copy)]
struct Begun {
    fits: bool,
    listed: usize,
}

// ---- a slot

fn many(ps: Points) -> usize
    ensures { result ≡ many ps }
{
    match ps {
        Points::None => 0,
        Points::One(_) => 1,
        Points::Two(_, _) => 2,
    }
}

fn turn_of(slot: Leaf<18>, timed: usize, listed: usize, pointed: usize, entered: usize) -> Turn
    ensures { result ≡ record { slot = slot; after = record { timed = timed; listed = listed; pointed = pointed; entered = entered } } }
{
    Turn {
        slot,
        after: Place {
            timed,
            listed,
            pointed,
            entered,
        },
    }
}

fn timing_turn(d: DetailedTiming, at: Place) -> Turn
    requires { Small at }
    ensures { (σ : Structure) (lent : List ℕ) → Turned σ lent at result.after result.slot.fits result.slot.bytes (four (d ∷ []) [] [] []) }
{
    turn_of(
        write_timing::timing_bytes(d),
        at.timed + 1,
        at.listed,
        at.pointed,
        at.entered,
    )
}

fn pairs_turn(six: PairsBytes, at: Place) -> Turn
    requires { Small at × (six.many ≤ 8) }
    ensures { (result.slot.fits ≡ six.fits) × (result.slot.bytes ≡ pairs_slot (take 12 six.bytes)) × (result.after ≡ record { timed = at.timed; listed = at.listed + six.many; pointed = at.pointed; entered = at.entered }) }
{
    let taken = six.many;
    turn_of(
        write_slots::six_bytes(six),
        at.timed,
        at.listed + taken,
        at.pointed,
        at.entered,
    )
}

// White points, a descriptor or nothing.
fn other_turn(
    structure: Structure,
    ps: Points,
    d: Option<Descriptor>,
    lent: &[u8],
    at: Place,
) -> Turn
    requires { Small at }
    ensures { Turned structure lent.now at result.after result.slot.fits result.slot.bytes (first [] [] (of_points ps) (of_descriptor d)) }
{
    let timed = at.timed;
    let listed = at.listed;
    let pointed = at.pointed;
    let entered = at.entered;
    let two = many(ps);
    if two > 0 {
        return turn_of(
            write_slots::points_bytes(ps),
            timed,
            listed,
            pointed + two,
            entered,
        );
    }
    match d {
        Some(x) => turn_of(
            write_slots::descriptor_bytes(structure, x, lent),
            timed,
            listed,
            pointed,
            entered + 1,
        ),
        None => turn_of(
            write_slots::points_bytes(Points::None),
            timed,
            listed,
            pointed,
            entered,
        ),
    }
}

// ---- the block

// Lays a part over the bytes from `at` on.
fn lay(block: &mut [u8], at: usize, part: &[u8])
    requires { at + length part.now ≤ length block.old }
    ensures { block.new ≡ paste block.old at part.now (length part.now) }
{
    block[at..at + part.len()].copy_from_slice(part);
}

// The same of a slot, whose length its type tells.
fn lay_slot(block: &mut [u8], at: usize, part: &[u8; 18])
    requires { at + 18 ≤ length block.old }
    ensures { (length part.now ≡ 18) × (block.new ≡ paste block.old at part.now 18) }
{
    lay(block, at, part);
}

// Whether a list of that length and size has no entry from k on.
fn ended(k: usize, len: usize, size: usize) -> bool
    ensures { result ≡ nat_le (min len size) k }
{
    len.min(size) <= k
}

// Whether the lists are used up.
fn used_up(r: StandardRecord, at: Place) -> bool
    ensures { UsedUp (ahead (seen r) at) result }
{
    (ended(at.timed, r.timings.detailed.len, 4) & ended(at.listed, r.timings.standard.len, 26))
        & (ended(at.pointed, r.color.points.len, 6) & ended(at.entered, r.descriptors.len, 3))
}

// Whether the first slot holds a timing.
fn timing_first(r: StandardRecord) -> bool
    ensures { result ≡ nat_lt 0 (length (taken (seen r) 0).timings) }
{
    let items = r.timings.detailed.items;
    write_next::next_timing(items[0], 0, r.timings.detailed.len, 1).is_some()
}

// The four slots, behind the pairs that are used up; whether every entry fits and none is left. The lists are local arrays: in the loop no call takes
// one, but where a slot holds pairs.
fn fill_slots(
    block: &mut [u8; 128],
    structure: Structure,
    r: StandardRecord,
    lent: &[u8],
    listed: usize,
) -> bool
    requires { (listed ≡ length (eight (seen r))) × (structure ≡ structure_of r.version.revision) }
    ensures { SlotsFit r lent.now result × (take 126 block.new ≡ take 54 block.old ++ gather (λ i. slot_from lent.now (taken (seen r) i)) 4) }
{
    let timings = r.timings.detailed.items;
    let pairs = r.timings.standard.items;
    let points = r.color.points.items;
    let entries = r.descriptors.items;
    let mut at = Place {
        timed: 0,
        listed,
        pointed: 0,
        entered: 0,
    };
    let mut fits = true;
    for i in 0..4u16 {
        let n = i + 1;
        let timed = at.timed;
        let listed = at.listed;
        let pointed = at.pointed;
        let entered = at.entered;
        let t = match write_next::next_timing(
            timings[timed % 4],
            timed,
            r.timings.detailed.len,
            n,
        ) {
            Some(d) => timing_turn(d, at),
            None => {
                if write_next::pair_ahead(pairs[listed % 26], listed, r.timings.standard.len, n) {
                    let list = StandardTimings {
                        items: pairs,
                        len: r.timings.standard.len,
                    };
                    pairs_turn(write_pairs::pairs_bytes(structure, list, listed, n), at)
                } else {
                    let most = r.color.points.len;
                    let p = write_next::next_point(points[pointed % 6], pointed, most, n);
                    let q = write_next::next_point(points[(pointed + 1) % 6], pointed + 1, most, n);
                    let d = write_next::next_descriptor(
                        entries[entered % 3],
                        entered,
                        r.descriptors.len,
                        n,
                    );
                    other_turn(structure, write_next::two_points(p, q), d, lent, at)
                }
            }
        };
        let slot = t.slot;
        let bytes = slot.bytes;
        lay_slot(block, 54 + 18 * i as usize, &bytes);
        fits &= slot.fits;
        at = t.after;
    }
    fits & used_up(r, at)
}

// The front and the eight pairs; whether they fit, and how many pairs are used up.
fn fill_front(block: &mut [u8; 128], structure: Structure, r: StandardRecord) -> Begun
    requires { structure ≡ structure_of r.version.revision }
    ensures { FrontFit r result.fits × (result.listed ≡ length (eight (seen r))) × (take 54 block.new ≡ front_bytes (front_of (seen r)) ++ pairs_bytes 8 (eight (seen r))) }
{
    let product = r.product;
    let version = r.version;
    let display = r.display;
    let basic = r.color.basic;
    let established = r.timings.established;
    let front = write_head::front_bytes(product, version, display, basic, established);
    let head = front.bytes;
    lay(block, 0, &head);
    let standard = r.timings.standard;
    let eight = write_pairs::pairs_bytes(structure, standard, 0, 0);
    let pairs = eight.bytes;
    lay(block, 38, &pairs);
    Begun {
        fits: front.fits & eight.fits,
        listed: eight.many,
    }
}

// The whole block; whether any block gives the record.
fn fill(block: &mut [u8; 128], r: StandardRecord, lent: &[u8]) -> bool
    ensures { Filled r lent.now result block.new }
{
    let structure = standard_parts::structure_of(r.version.revision);
    let begun = fill_front(block, structure, r);
    let slots = fill_slots(block, structure, r, lent, begun.listed);
    block[126] = r.extensions;
    block[127] = 0u8.wrapping_sub(sums::byte_sum(&block[0..127]));
    begun.fits & (timing_first(r) & slots)
}

// Why no block is written.
#[derive(Clone, Copy, Debug, PartialEq, Eq)]
pub enum WriteRefusal {
    WrongLength,
    NoBlock,
}

impl WriteRefusal {
    // The number by which it is told.
    pub fn number(self) -> u8
        ensures { result ≡ refusal_number self }
    {
        match self {
            WriteRefusal::WrongLength => 10,
            WriteRefusal::NoBlock => 11,
        }
    }
}

// The block of r, whose spans point into the bytes lent; a refusal leaves the output as it was.
pub fn write_standard(r: StandardRecord, lent: &[u8], out: &mut [u8]) -> Result<(), WriteRefusal>
    ensures { Written r lent.now out.old (told result) out.new }
{
    if out.len() != 128 {
        return Err(WriteRefusal::WrongLength);
    }
    let mut block = [0u8; 128];
    if fill(&mut block, r, lent) {
        lay(out, 0, &block);
        Ok(())
    } else {
        Err(WriteRefusal::NoBlock)
    }
}
