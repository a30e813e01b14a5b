// The answers for the controller's C code, which `exports_c` hands over under their names.
#![tactic(auto)]

ghost use Rattle.std.specs.Prelude.{◌≡◌, ◌≤◌, eqb, length};
ghost use Rattle.steps.specs.Leaves.{ended};
ghost use Rattle.steps.specs.Answers.{taken};
ghost use Rattle.sums.specs.Sum.{byte_sum};
ghost use Rattle.crate_reading.specs.Reading.{answer};
ghost use Rattle.bursts.specs.Bursts.{told, held, stage, standing, grow};
ghost use Rattle.standard_reading.specs.Block.{standard_of};
ghost use Rattle.picking.specs.Best.{listed};
ghost use Rattle.picking.specs.Score.{choice};
ghost use Rattle.exports.specs.Numbers.{number_of, number_told};
ghost use Rattle.exports.specs.Pick.{shown, pick_of};

use picking::Limits;
use standard_record::DetailedTimings;
use steps::Refusal;
use timing::{Lines, Pixels};

fn number_of(end: Result<usize, Refusal>) -> u32
    ensures { result ≡ number_of (ended {A = Unit} tt end) }
{
    match end {
        Ok(_) => 0,
        Err(f) => u32::from(f.number),
    }
}

fn taken_by(end: Result<usize, Refusal>) -> usize
    ensures { result ≡ taken (ended {A = Unit} tt end) }
{
    match end {
        Ok(n) => n,
        Err(f) => f.at,
    }
}

// ---- of a block

// The crate reading's refusal number; 0 where the block is accepted.
pub fn edid_refusal_number(block: &[u8]) -> u32
    ensures { result ≡ number_of (answer block.now) }
{
    number_of(crate_end::end_of(block))
}

// The bytes that the crate reading took, to the end of the record or to its refusal.
pub fn edid_bytes_taken(block: &[u8]) -> usize
    ensures { result ≡ taken (answer block.now) }
{
    taken_by(crate_end::end_of(block))
}

// Whether the bytes add up to zero, modulo 256; those of the empty slice do.
pub fn edid_sum_is_zero(block: &[u8]) -> bool
    ensures { result ≡ eqb (byte_sum block.now) 0 }
{
    sums::sum_is_zero(block)
}

// ---- of bursts

// Takes a burst; what is told after it: the number as above, or 257 while nothing is.
pub fn edid_burst(state: &mut [u8; 146], burst: &[u8]) -> u32
    ensures { (standing state.new ≡ grow (standing state.old) burst.now)
        × (result ≡ number_told (told (stage state.new))) }
{
    match bursts::take(state, burst) {
        None => 257,
        Some(end) => number_of(end),
    }
}

// The input ended: the number of all that came.
pub fn edid_burst_number(state: &[u8; 146]) -> u32
    ensures { result ≡ number_of (answer (held state.now)) }
{
    number_of(bursts::end(state))
}

// And the bytes taken.
pub fn edid_burst_taken(state: &[u8; 146]) -> usize
    ensures { result ≡ taken (answer (held state.now)) }
{
    taken_by(bursts::end(state))
}

// ---- of the timing to show

// The chosen timing's numbers are written over the first fourteen.
#[inline(always)]
fn show(limits: Limits, list: DetailedTimings, numbers: &mut [u32]) -> u32
    requires { 14 ≤ length numbers.old }
    ensures { (result, numbers.new) ≡ shown list numbers.old (choice limits (listed list)) }
{
    match picking::choose(limits, list) {
        Err(number) => u32::from(number),
        Ok(i) => {
            let timing = list.items[i].timing;
            numbers[..14].copy_from_slice(&timing_numbers::numbers_of(timing));
            0
        }
    }
}

// By the standard reading and the board's limits: 0 and the numbers of the timing to show; or its refusal, 14 where no timing qualifies, 10 where
// fewer than fourteen numbers are lent, and these stay as they are.
pub fn edid_pick(block: &[u8], clock: u32, across: u16, down: u16, numbers: &mut [u32]) -> u32
    ensures { (result, numbers.new) ≡ pick_of (record { clock = clock; across = record { 0 = across }; down = record { 0 = down } })
        (standard_of block.now) numbers.old }
{
    if numbers.len() < 14 {
        return 10;
    }
    let limits = Limits {
        clock,
        across: Pixels(across),
        down: Lines(down),
    };
    match standard_reading::read_timings(block) {
        Ok(list) => show(limits, list, numbers),
        Err(refusal) => u32::from(refusal.number),
    }
}
