// The crate reading: all of `parse` of the source, over a lent slice.
#![tactic(auto)]

ghost use Rattle.std.specs.Prelude.{◌≡◌};
ghost use Rattle.steps.specs.Steps.{map};
ghost use Rattle.steps.specs.Leaves.{Beside};
ghost use Rattle.steps.specs.Took.{Took};
ghost use Rattle.crate_record.specs.Filler.{blank};
ghost use Rattle.crate_record.specs.Lists.{standard_timings};
ghost use Rattle.crate_timings.specs.Pairs.{pairs};
ghost use Rattle.crate_reading.specs.Reading.{reading, answer};
ghost use Rattle.crate_reading.specs.Parts.{edid_of};

use crate_head::Front;
use crate_record::{ColorCharacteristics, EDID, Reading, StandardTimings, Timings};
use crate_slots::Lists;
use shared_record::EstablishedTimings;
use steps::{Cursor, Refusal};

// The parts, rearranged: the timing information all in one place.
#[inline(always)]
fn edid_of(front: Front, established: EstablishedTimings, lists: Lists, extensions: u8) -> EDID
    ensures { result ≡ edid_of front established lists extensions }
{
    let product = front.product;
    let version = front.version;
    let display = front.display;
    let basic = front.basic;
    let points = lists.points;
    let standard = lists.standard;
    let detailed = lists.detailed;
    let descriptors = lists.descriptors;
    EDID {
        product,
        version,
        display,
        color: ColorCharacteristics { basic, points },
        timings: Timings {
            established,
            standard,
            detailed,
        },
        descriptors,
        extensions,
    }
}

// The eight pairs before the slots.
#[inline(always)]
fn take_eight(c: &mut Cursor) -> Result<StandardTimings, Refusal>
    ensures { Took (map standard_timings (pairs 8)) c.old result c.new }
{
    crate_timings::take_pairs(c, 8, crate_timings::no_standard())
}

#[inline(always)]
fn take_edid(c: &mut Cursor) -> Result<EDID, Refusal>
    ensures { Took reading c.old result c.new }
{
    let front = crate_head::take_front(c)?;
    let established = crate_timings::take_established(c)?;
    let eight = take_eight(c)?;
    let lists = crate_slots::take_descriptors(c, eight)?;
    let extensions = c.byte()?;
    Ok(edid_of(front, established, lists, extensions))
}

pub fn read(s: &[u8]) -> Reading
    ensures { Beside blank result.edid result.end (answer s.now) }
{
    let mut c = Cursor { bytes: s, at: 0 };
    match take_edid(&mut c) {
        Ok(edid) => Reading {
            edid,
            end: Ok(c.at),
        },
        Err(f) => Reading {
            edid: crate_record::blank_edid(),
            end: Err(f),
        },
    }
}
