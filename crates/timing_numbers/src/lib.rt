// A detailed timing as fourteen numbers, written into those that the caller lends: what a C program asks for to drive a panel.
#![tactic(auto)]

ghost use Rattle.std.specs.Prelude.{◌≡◌};
ghost use Rattle.timing_numbers.specs.Numbers.{polarity, sync_numbers, numbers_of};

use standard_record::{DetailedTiming, Sync};
use timing::SyncPolarity;

// Its kind, and two values.
#[derive(Clone, Copy)]
pub struct SyncNumbers {
    pub kind: u32,
    pub first: u32,
    pub second: u32,
}

fn polarity_number(p: SyncPolarity) -> u32
    ensures { result ≡ polarity p }
{
    match p {
        SyncPolarity::Positive => 1,
        SyncPolarity::Negative => 0,
    }
}

fn sync_numbers(t: Sync) -> SyncNumbers
    ensures { result ≡ sync_numbers t }
{
    match t {
        Sync::AnalogComposite { serrated, line } => SyncNumbers {
            kind: 0,
            first: u32::from(serrated),
            second: u32::from(standard_slot_lines::line_number(line)),
        },
        Sync::BipolarAnalogComposite { serrated, line } => SyncNumbers {
            kind: 1,
            first: u32::from(serrated),
            second: u32::from(standard_slot_lines::line_number(line)),
        },
        Sync::DigitalComposite { serrated, polarity } => SyncNumbers {
            kind: 2,
            first: u32::from(serrated),
            second: polarity_number(polarity),
        },
        Sync::DigitalSeparate {
            horizontal,
            vertical,
        } => SyncNumbers {
            kind: 3,
            first: polarity_number(horizontal),
            second: polarity_number(vertical),
        },
    }
}

// In the order of its line in the listing, without its size, its border and its slot.
pub fn numbers_of(t: DetailedTiming) -> [u32; 14]
    ensures { result ≡ numbers_of t }
{
    let sync = sync_numbers(t.sync);
    [
        t.clock,
        u32::from(t.across.active.0),
        u32::from(t.down.active.0),
        u32::from(t.across.front.0),
        u32::from(t.down.front.0),
        u32::from(t.across.sync.0),
        u32::from(t.down.sync.0),
        u32::from(t.across.back.0),
        u32::from(t.down.back.0),
        u32::from(t.interlaced),
        u32::from(shared_lines::stereo_number(t.stereo)),
        sync.kind,
        sync.first,
        sync.second,
    ]
}
