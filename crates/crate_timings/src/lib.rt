// The established flags and the standard timings.
#![tactic(auto)]

ghost use Rattle.std.specs.Prelude.{◌≡◌, []};
ghost use Rattle.steps.specs.Steps.{map};
ghost use Rattle.steps.specs.Took.{Took};
ghost use Rattle.shared_record.specs.Established.{established_timings};
ghost use Rattle.crate_record.specs.Lists.{standard_timings};
ghost use Rattle.crate_timings.specs.Established.{established};
ghost use Rattle.crate_timings.specs.Pairs.{standard_timing_of, pair_of, pair, fill_pairs};

use crate_record::{StandardTiming, StandardTimings};
use shared_record::EstablishedTimings;
use steps::{Cursor, Refusal};

pub fn take_established(c: &mut Cursor) -> Result<EstablishedTimings, Refusal>
    ensures { Took (map established_timings established) c.old result c.new }
{
    let ft = c.word()?;
    let last = c.byte()?;
    Ok(shared_record::established_of(ft, last))
}

fn standard_timing_of(low: u8, high: u8) -> StandardTiming
    ensures { result ≡ standard_timing_of low high }
{
    StandardTiming {
        ratio: crate_record::ratio_of(bits::digits(high, 6, 2)),
        width: (low as u16 + 31) * 8,
        rate: bits::digits(high, 0, 6) as u16 + 60,
    }
}

// None where both bytes are 01: the pair is skipped.
#[tactic(auto, unfolding(crate::specs::Pairs::pair_of))]
fn pair_of(low: u8, high: u8) -> Option<StandardTiming>
    ensures { result ≡ pair_of low high }
{
    if low == 1 && high == 1 {
        None
    } else {
        Some(standard_timing_of(low, high))
    }
}

#[inline(always)]
pub fn take_pair(c: &mut Cursor) -> Result<Option<StandardTiming>, Refusal>
    ensures { Took pair c.old result c.new }
{
    let (low, high) = c.two()?;
    Ok(pair_of(low, high))
}

#[inline(always)]
pub fn no_standard() -> StandardTimings
    ensures { result ≡ standard_timings [] }
{
    StandardTimings {
        items: [crate_record::BLANK_STANDARD; 26],
        len: 0,
    }
}

// n pairs, each onto the list.
#[inline(always)]
pub fn take_pairs(
    c: &mut Cursor,
    n: usize,
    list: StandardTimings,
) -> Result<StandardTimings, Refusal>
    ensures { Took (fill_pairs n list) c.old result c.new }
{
    let mut list = list;
    for _ in 0..n {
        if let Some(timing) = take_pair(c)? {
            list.push(timing);
        }
    }
    Ok(list)
}
