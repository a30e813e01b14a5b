// The four slots: the first holds a timing, and each of the three later ones starts where the one before stopped.
#![tactic(auto)]

ghost use Rattle.std.specs.Prelude.{◌≡◌, OnErr};
ghost use Rattle.steps.specs.Steps.{map};
ghost use Rattle.steps.specs.Took.{Took, with_value};
ghost use Rattle.crate_slots.specs.Slots.{slots, lists_after};
ghost use Rattle.crate_slots.specs.Filling.{fill_described, fill_slot};

use crate_descriptors::{Points, Slot};
use crate_record::{
    BLANK_DESCRIPTOR, BLANK_DETAILED, BLANK_WHITE, DetailedTimings, MonitorDescriptors,
    StandardTimings, WhitePoints,
};
use steps::{Cursor, Refusal};

// What the slots hold, with the standard timings that came before them.
#[derive(Clone, Copy)]
pub struct Lists {
    pub standard: StandardTimings,
    pub detailed: DetailedTimings,
    pub points: WhitePoints,
    pub descriptors: MonitorDescriptors,
}

// What a descriptor adds to the lists; where it is refused they stay.
#[inline(always)]
fn take_described(c: &mut Cursor, lists: &mut Lists) -> Result<(), Refusal>
    ensures takes { Took (fill_described lists.old) c.old (with_value lists.new result) c.new }
    ensures stays { OnErr result (lists.new ≡ lists.old) }
{
    match crate_descriptors::take_descriptor(c)? {
        Slot::Nothing => {}
        Slot::Described(d) => lists.descriptors.push(d),
        Slot::White(Points::One(p)) => lists.points.push(p),
        Slot::White(Points::Two(p, q)) => {
            lists.points.push(p);
            lists.points.push(q);
        }
        Slot::Six => {
            let standard = crate_timings::take_pairs(c, 6, lists.standard)?;
            crate_descriptors::take_closing(c, 0)?;
            lists.standard = standard;
        }
    }
    Ok(())
}

// What the slot i adds to them; where it is refused they stay.
#[inline(always)]
fn take_slot(i: usize, c: &mut Cursor, lists: &mut Lists) -> Result<(), Refusal>
    ensures takes { Took (fill_slot i lists.old) c.old (with_value lists.new result) c.new }
    ensures stays { OnErr result (lists.new ≡ lists.old) }
{
    if let Some(timing) = crate_detailed::take_detailed(c)? {
        lists.detailed.push(timing);
        return Ok(());
    }
    if i == 0 {
        return Err(Refusal {
            number: 3,
            at: c.at,
        });
    }
    take_described(c, lists)
}

#[inline(always)]
pub fn take_descriptors(c: &mut Cursor, standard: StandardTimings) -> Result<Lists, Refusal>
    ensures { Took (map (lists_after standard) slots) c.old result c.new }
{
    let mut lists = Lists {
        standard,
        detailed: DetailedTimings {
            items: [BLANK_DETAILED; 4],
            len: 0,
        },
        points: WhitePoints {
            items: [BLANK_WHITE; 6],
            len: 0,
        },
        descriptors: MonitorDescriptors {
            items: [BLANK_DESCRIPTOR; 3],
            len: 0,
        },
    };
    for i in 0..4 {
        take_slot(i, c, &mut lists)?;
    }
    Ok(lists)
}
