// The bytes of a run of pairs: those of a record's list that carry one number, packed to the front, then 01 01.
#![tactic(auto)]

ghost use Rattle.std.specs.Prelude.{◌≡◌, ◌≤◌, min, not, eqb};
ghost use Rattle.write_parts.specs.Pair.{WritesPair};
ghost use Rattle.write_pairs.specs.Pairs.{most, pairs_ahead, WritesPairs};

use standard_parts::Structure;
use standard_record::{HeldPair, StandardTimings};

// `many` is the length of the run. No Option: `WritesPairs` tells of the bytes where they do not fit too.
#[derive(Drop)]
pub struct PairsBytes {
    pub fits: bool,
    pub bytes: [u8; 16],
    pub many: usize,
}

// No Option, as of the run.
#[derive(Clone, Copy)]
struct HeldBytes {
    other: bool,
    fits: bool,
    first: u8,
    second: u8,
}

fn most(number: u16) -> usize
    ensures { (result ≡ most number) × (result ≤ 8) }
{
    if number == 0 { 8 } else { 6 }
}

// The bytes of an entry, and whether it has another number.
fn held_bytes(structure: Structure, held: HeldPair, number: u16) -> HeldBytes
    ensures { (result.other ≡ not (eqb held.slot number)) × WritesPair structure held.pair result.fits (result.first, result.second) }
{
    let w = write_parts::pair_bytes(structure, held.pair);
    HeldBytes {
        other: held.slot != number,
        fits: w.fits,
        first: w.first,
        second: w.second,
    }
}

// The run from `from` on; at most eight, numbered 0, or six.
pub fn pairs_bytes(
    structure: Structure,
    list: StandardTimings,
    from: usize,
    number: u16,
) -> PairsBytes
    ensures { WritesPairs structure (pairs_ahead list from number) result.fits result.bytes result.many }
{
    let items = list.items;
    let end = list.len.min(26);
    let limit = most(number);
    let mut fits = true;
    let mut bytes = [1u8; 16];
    let mut many: usize = 0;
    for k in from..end {
        if many >= limit {
            return PairsBytes { fits, bytes, many };
        }
        let w = held_bytes(structure, items[k], number);
        if w.other {
            return PairsBytes { fits, bytes, many };
        }
        bytes[2 * many] = w.first;
        bytes[2 * many + 1] = w.second;
        fits &= w.fits;
        many += 1;
    }
    PairsBytes { fits, bytes, many }
}
