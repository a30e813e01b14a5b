// The reading of a CTA-861 extension: judged in the order of the refusals, 7, 8, 12 and 13, then data block after data block, 13, then timing
// after timing, 6; each of them is looked at once.
#![tactic(auto)]

ghost use Rattle.std.specs.Prelude.{◌≡◌, length, Ok, Err};
ghost use Rattle.fixed.specs.Fixed.{push, pushed};
ghost use Rattle.cta_record.specs.Filler.{blank};
ghost use Rattle.cta_reading.specs.Cta.{is_offset, is_timing, before_blocks, cta_of};
ghost use Rattle.cta_reading.specs.Judged.{start};
ghost use Rattle.cta_reading.specs.Lists.{BlocksOf};

use cta_record::{
    BLANK_BLOCK, Cta, CtaReading, CtaTimings, DataBlock, DataBlocks, VideoDescriptors,
};
use standard_record::{BLANK_TIMING, Verdict};
use steps::{Refusal, Span};

fn refuse(f: Refusal) -> CtaReading
    ensures { result ≡ record { cta = blank; end = Err f } }
{
    CtaReading {
        cta: cta_record::blank_cta(),
        end: Err(f),
    }
}

// ---- what is judged first

fn is_offset(d: u8) -> bool
    ensures { result ≡ is_offset d }
{
    d == 0 || (4 <= d && d <= 127)
}

#[tactic(auto, unfolding(crate::specs::Cta::before_blocks))]
fn before_blocks(s: &[u8]) -> Verdict
    ensures { result ≡ before_blocks s.now }
{
    standard_verdict::must(s.len() == 128, 7, 0)?;
    standard_verdict::must(sums::sum_is_zero(s), 8, 127)?;
    standard_verdict::must(s[0] == 0x02, 12, 0)?;
    standard_verdict::must(is_offset(s[2]), 13, 2)
}

// ---- timings

fn is_timing(s: &[u8], p: usize) -> bool
    ensures { result ≡ is_timing s.now p }
{
    p <= 109 && standard_timing::clock_in(bits::part(s, p, 18)) != 0
}

// Where the timings begin; with no offset at byte 127, where none has room.
fn first_timing(offset: u8) -> usize
    ensures { result ≡ start offset }
{
    if offset == 0 { 127 } else { offset as usize }
}

// The data blocks are read: the two lists are what they say.
fn read_timings(s: &[u8], video: VideoDescriptors, blocks: DataBlocks) -> CtaReading
    requires { BlocksOf s.now video blocks }
    ensures { result ≡ cta_of s.now }
{
    let offset = s[2];
    let mut timings = CtaTimings {
        items: [BLANK_TIMING; 6],
        len: 0,
    };
    let mut p = first_timing(offset);
    while is_timing(s, p) {
        match standard_timing::timing_in(bits::part(s, p, 18)) {
            None => return refuse(Refusal { number: 6, at: p }),
            Some(timing) => timings.push(timing),
        }
        p += 18;
    }
    CtaReading {
        cta: Cta {
            revision: s[1],
            offset,
            support: s[3],
            video,
            blocks,
            timings,
        },
        end: Ok(()),
    }
}

// ---- data blocks

// The bytes of `run` go behind those of `video`, as far as there is room.
fn append(video: &mut VideoDescriptors, run: &[u8])
    ensures { video.new ≡ pushed (push 119) video.old run.now }
{
    let from = video.len;
    let many = run.len().min(119usize.saturating_sub(from));
    for i in 0..many {
        video.items[from + i] = run[i];
    }
    video.len = from + many;
}

fn read_blocks(s: &[u8]) -> CtaReading
    requires { (length s.now ≡ 128) × (before_blocks s.now ≡ Ok tt) }
    ensures { result ≡ cta_of s.now }
{
    let offset = s[2] as usize;
    let mut video = VideoDescriptors {
        items: [0u8; 119],
        len: 0,
    };
    let mut blocks = DataBlocks {
        items: [BLANK_BLOCK; 123],
        len: 0,
    };
    let mut p: usize = 4;
    while p < offset {
        let tag = bits::digits(s[p], 5, 3);
        let len = bits::digits(s[p], 0, 5) as usize;
        let start = p + 1;
        let end = start + len;
        if end > offset {
            return refuse(Refusal { number: 13, at: p });
        }
        if tag == 2 {
            append(&mut video, &s[start..end]);
        } else {
            blocks.push(DataBlock {
                tag,
                run: Span { start, len },
            });
        }
        p = end;
    }
    read_timings(s, video, blocks)
}

pub fn read_cta(s: &[u8]) -> CtaReading
    ensures { result ≡ cta_of s.now }
{
    match before_blocks(s) {
        Err(f) => refuse(f),
        Ok(()) => read_blocks(s),
    }
}
