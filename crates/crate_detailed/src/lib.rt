// A detailed timing: 18 bytes, or 3 where they hold none.
#![tactic(auto)]

ghost use Rattle.std.specs.Prelude.{◌≡◌};
ghost use Rattle.steps.specs.Took.{Took};
ghost use Rattle.crate_detailed.specs.Detailed.{line_of, sync_by, sync_of, in_tenths, axes, timing_of, timed, detailed};

use crate_record::{DetailedTiming, ImageSize, SyncLine, SyncType};
use steps::{Cursor, Refusal};
use timing::{Across, Down};

#[derive(Clone, Copy)]
pub struct Axes {
    pub across: Across,
    pub down: Down,
}

fn line_of(rgb: bool) -> SyncLine
    ensures { result ≡ line_of rgb }
{
    if rgb { SyncLine::RGB } else { SyncLine::Green }
}

// By digits 4 and 3 of the last byte, then 2 and 1.
fn sync_by(kind: u8, two: bool, one: bool) -> SyncType
    ensures { result ≡ sync_by kind two one }
{
    match kind {
        0 | 1 => SyncType::Composite {
            serrated: two,
            line: line_of(one),
        },
        2 => SyncType::Composite {
            serrated: two,
            line: SyncLine::Digital(timing::polarity_of(one)),
        },
        _ => SyncType::Separate {
            horizontal: timing::polarity_of(one),
            vertical: timing::polarity_of(two),
        },
    }
}

#[tactic(auto, unfolding(crate::specs::Detailed::sync_of))]
fn sync_of(val: u8) -> SyncType
    ensures { result ≡ sync_of val }
{
    sync_by(
        bits::digits(val, 3, 2),
        bits::is_set(val, 2),
        bits::is_set(val, 1),
    )
}

// Centimetres, from whole millimetres.
fn in_tenths(mm: timing::Size) -> ImageSize
    ensures { result ≡ in_tenths mm }
{
    ImageSize {
        width: crate_record::tenths_of(mm.width),
        height: crate_record::tenths_of(mm.height),
    }
}

// The nine bytes after the active low byte ha. Refusal 6 where either axis has no room for its back porch.
fn take_axes(c: &mut Cursor, ha: u8) -> Result<Axes, Refusal>
    ensures { Took (axes ha) c.old result c.new }
{
    let (hb, hh, va, vb) = c.four()?;
    let (vh, ho, hw, vs) = c.four()?;
    let hv = c.byte()?;
    let no_room = Refusal {
        number: 6,
        at: c.at,
    };
    Ok(Axes {
        across: timing::across_of(ha, hb, hh, ho, hw, hv).ok_or(no_room)?,
        down: timing::down_of(va, vb, vh, vs, hv).ok_or(no_room)?,
    })
}

// The six bytes after them: size, border, sync.
#[tactic(auto, unfolding(crate::specs::Detailed::timing_of))]
fn timing_of(
    clock: u16,
    axes: Axes,
    hs: u8,
    vs: u8,
    sh: u8,
    hb: u8,
    vb: u8,
    val: u8,
) -> DetailedTiming
    ensures { result ≡ timing_of clock axes hs vs sh hb vb val }
{
    let Axes { across, down } = axes;
    DetailedTiming {
        clock: timing::clock_of(clock),
        across,
        down,
        size: in_tenths(timing::size_of(hs, vs, sh)),
        border: timing::border_of(hb, vb),
        interlaced: bits::is_set(val, 7),
        stereo: timing::stereo_of(val),
        sync: sync_of(val),
    }
}

fn take_timing(c: &mut Cursor, clock: u16, ha: u8) -> Result<Option<DetailedTiming>, Refusal>
    ensures { Took (timed clock ha) c.old result c.new }
{
    let axes = take_axes(c, ha)?;
    let (hs, vs, sh, hb) = c.four()?;
    let (vb, val) = c.two()?;
    Ok(Some(timing_of(clock, axes, hs, vs, sh, hb, vb, val)))
}

// None where the clock or the active low byte is zero.
pub fn take_detailed(c: &mut Cursor) -> Result<Option<DetailedTiming>, Refusal>
    ensures { Took detailed c.old result c.new }
{
    let clock = c.word()?;
    let ha = c.byte()?;
    if clock == 0 || ha == 0 {
        return Ok(None);
    }
    take_timing(c, clock, ha)
}
