// The record of a CTA-861 extension: every type of it, and one filler for each list.
#![tactic(auto)]

ghost use Rattle.std.specs.Prelude.{◌≡◌};
ghost use Rattle.cta_record.specs.Filler.{blank};

use fixed::Fixed;
use standard_record::{BLANK_TIMING, DetailedTiming, Verdict};
use steps::Span;

// The descriptor bytes of all data blocks with tag 2, in their order.
pub type VideoDescriptors = Fixed<u8, 119>;

// One with another tag: the run of its bytes stands behind the header.
#[derive(Clone, Copy)]
pub struct DataBlock {
    pub tag: u8,
    pub run: Span,
}

pub type DataBlocks = Fixed<DataBlock, 123>;

pub type CtaTimings = Fixed<DetailedTiming, 6>;

// `offset` is byte 2, where the timings begin, or 0; `support` is byte 3.
#[derive(Drop)]
pub struct Cta {
    pub revision: u8,
    pub offset: u8,
    pub support: u8,
    pub video: VideoDescriptors,
    pub blocks: DataBlocks,
    pub timings: CtaTimings,
}

// The record, and beside it how its reading ended; the filler where it was refused, as the theorem `filler_beside_a_refusal` says: so it is no Result of a record.
#[derive(Drop)]
pub struct CtaReading {
    pub cta: Cta,
    pub end: Verdict,
}

// ---- the fillers: what stands past a list's length, and the record beside a refusal

pub const BLANK_BLOCK: DataBlock = DataBlock {
    tag: 0,
    run: Span { start: 0, len: 0 },
};

const BLANK: Cta = Cta {
    revision: 0,
    offset: 0,
    support: 0,
    video: VideoDescriptors {
        items: [0u8; 119],
        len: 0,
    },
    blocks: DataBlocks {
        items: [BLANK_BLOCK; 123],
        len: 0,
    },
    timings: CtaTimings {
        items: [BLANK_TIMING; 6],
        len: 0,
    },
};

// The record beside a refusal.
pub fn blank_cta() -> Cta
    ensures { result ≡ blank }
{
    BLANK
}
