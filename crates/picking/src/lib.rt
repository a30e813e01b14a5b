// Which of a record's detailed timings to show: the best that the board can drive, and whether a proposed index is that one's.
#![tactic(auto)]

ghost use Rattle.std.specs.Prelude.{◌≡◌};
ghost use Rattle.picking.specs.Best.{listed, Chooses, Accepts};
ghost use Rattle.picking.specs.Score.{score_of};

use standard_record::{DetailedTiming, DetailedTimings};
use timing::{Lines, Pixels};

// What the board can drive: the highest clock in Hz, the most pixels across, the most lines.
#[derive(Clone, Copy)]
pub struct Limits {
    pub clock: u32,
    pub across: Pixels,
    pub down: Lines,
}

// The index of a timing, or the number of a refusal.
pub type Choice = Result<usize, u8>;

// Its active pixels in all where it qualifies; else 0, which no timing has that does.
#[tactic(auto, using(std::proofs::lemmas::Bool::Decides::nat_tests))]
fn score(limits: Limits, t: DetailedTiming) -> u32
    ensures { result ≡ score_of limits t }
{
    let across = t.across.active.0;
    let down = t.down.active.0;
    if t.interlaced {
        return 0;
    }
    if t.clock > limits.clock {
        return 0;
    }
    if across > limits.across.0 {
        return 0;
    }
    if down > limits.down.0 {
        return 0;
    }
    across as u32 * down as u32
}

// The index of the best, or refusal 14 where no timing qualifies: from the last to the first, one that is at least as good takes its place.
pub fn choose(limits: Limits, list: DetailedTimings) -> Choice
    ensures { Chooses limits (listed list) result }
{
    let items = list.items;
    let end = list.len.min(4);
    let mut most = 0;
    let mut at = end;
    for k in (0..end).rev() {
        let h = items[k];
        let its = score(limits, h.timing);
        if its >= most {
            most = its;
            at = k;
        }
    }
    if most == 0 { Err(14) } else { Ok(at) }
}

// Whether the timing at this index is the one to show.
pub fn accepts(limits: Limits, list: DetailedTimings, index: usize) -> bool
    ensures { Accepts limits (listed list) index result }
{
    match choose(limits, list) {
        Ok(i) => i == index,
        Err(_) => false,
    }
}
