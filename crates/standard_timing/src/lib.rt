// The timing rule of the standard reading: 18 bytes to a detailed timing, or to none, which is refusal 6. It knows no slot, and a clock
// of 0, by which a caller tells that there is no timing, is a number to it as any other. Past the end of t every byte is 0.
#![tactic(auto)]

ghost use Rattle.std.specs.Prelude.{◌≡◌};
ghost use Rattle.standard_timing.specs.Timing.{line_of, sync_by, sync_of, timed_by, clock_in, across_in, down_in, size_in, border_in, timing_in};

use standard_record::{DetailedTiming, Sync, SyncLine};
use timing::{Across, Border, Down, Size, StereoType};

// ---- the last byte

fn line_of(rgb: bool) -> SyncLine
    ensures { result ≡ line_of rgb }
{
    if rgb { SyncLine::RGB } else { SyncLine::Green }
}

fn sync_by(code: u8, two: bool, one: bool) -> Sync
    ensures { result ≡ sync_by code two one }
{
    let line = line_of(one);
    let polarity = timing::polarity_of(one);
    let vertical = timing::polarity_of(two);
    match code {
        0 => Sync::AnalogComposite {
            serrated: two,
            line,
        },
        1 => Sync::BipolarAnalogComposite {
            serrated: two,
            line,
        },
        2 => Sync::DigitalComposite {
            serrated: two,
            polarity,
        },
        _ => Sync::DigitalSeparate {
            horizontal: polarity,
            vertical,
        },
    }
}

fn sync_of(b17: u8) -> Sync
    ensures { result ≡ sync_of b17 }
{
    sync_by(
        bits::digits(b17, 3, 2),
        bits::is_set(b17, 2),
        bits::is_set(b17, 1),
    )
}

// ---- the bytes by their places

pub fn clock_in(t: &[u8]) -> u16
    ensures { result ≡ clock_in t.now }
{
    bits::word(bits::byte_at(t, 0), bits::byte_at(t, 1))
}

fn across_in(t: &[u8]) -> Option<Across>
    ensures { result ≡ across_in t.now }
{
    timing::across_of(
        bits::byte_at(t, 2),
        bits::byte_at(t, 3),
        bits::byte_at(t, 4),
        bits::byte_at(t, 8),
        bits::byte_at(t, 9),
        bits::byte_at(t, 11),
    )
}

fn down_in(t: &[u8]) -> Option<Down>
    ensures { result ≡ down_in t.now }
{
    timing::down_of(
        bits::byte_at(t, 5),
        bits::byte_at(t, 6),
        bits::byte_at(t, 7),
        bits::byte_at(t, 10),
        bits::byte_at(t, 11),
    )
}

fn size_in(t: &[u8]) -> Size
    ensures { result ≡ size_in t.now }
{
    timing::size_of(
        bits::byte_at(t, 12),
        bits::byte_at(t, 13),
        bits::byte_at(t, 14),
    )
}

fn border_in(t: &[u8]) -> Border
    ensures { result ≡ border_in t.now }
{
    timing::border_of(bits::byte_at(t, 15), bits::byte_at(t, 16))
}

// ---- the timing

fn timed_by(
    h: Option<Across>,
    v: Option<Down>,
    clock: u32,
    size: Size,
    border: Border,
    interlaced: bool,
    stereo: StereoType,
    sync: Sync,
) -> Option<DetailedTiming>
    ensures { result ≡ timed_by h v clock size border interlaced stereo sync }
{
    let across = h?;
    let down = v?;
    Some(DetailedTiming {
        clock,
        across,
        down,
        size,
        border,
        interlaced,
        stereo,
        sync,
    })
}

// None: sync and front porch exceed the blanking on one axis.
#[tactic(auto, unfolding(crate::specs::Timing::timing_in))]
pub fn timing_in(t: &[u8]) -> Option<DetailedTiming>
    ensures { result ≡ timing_in t.now }
{
    let last = bits::byte_at(t, 17);
    timed_by(
        across_in(t),
        down_in(t),
        timing::clock_of(clock_in(t)),
        size_in(t),
        border_in(t),
        bits::is_set(last, 7),
        timing::stereo_of(last),
        sync_of(last),
    )
}
