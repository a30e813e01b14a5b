// The 18 bytes of a detailed timing: the timing rule the other way round.
#![tactic(auto)]

ghost use Rattle.std.specs.Prelude.{◌≡◌, ◌≤◌};
ghost use Rattle.write_timing.specs.Timing.{stereo_code, line_code, polarity_code, sync_code, last_of, across_blank, down_blank, porch_code, across_excess, down_excess, edge_excess, excess, fits_timing, WritesTiming};

use standard_record::{DetailedTiming, Sync, SyncLine};
use timing::{Across, Border, Down, Size, StereoType, SyncPolarity};
use write_leaf::Leaf;

// ---- the last byte

fn stereo_code(s: StereoType) -> u8
    ensures { (result ≡ stereo_code s) × (result ≤ 97) }
{
    match s {
        StereoType::None => 0,
        StereoType::SequentialRightSync => 0x20,
        StereoType::SequentialLeftSync => 0x40,
        StereoType::InterleavedLinesRightEven => 0x21,
        StereoType::InterleavedLinesLeftEven => 0x41,
        StereoType::Interleaved4Way => 0x60,
        StereoType::SideBySide => 0x61,
    }
}

fn line_code(line: SyncLine) -> u8
    ensures { (result ≡ line_code line) × (result ≤ 2) }
{
    match line {
        SyncLine::Green => 0,
        SyncLine::RGB => 2,
    }
}

fn polarity_code(p: SyncPolarity) -> u8
    ensures { (result ≡ polarity_code p) × (result ≤ 2) }
{
    match p {
        SyncPolarity::Negative => 0,
        SyncPolarity::Positive => 2,
    }
}

fn sync_code(s: Sync) -> u8
    ensures { (result ≡ sync_code s) × (result ≤ 30) }
{
    match s {
        Sync::AnalogComposite { serrated, line } => write_leaf::digit(serrated) * 4
            + line_code(line),
        Sync::BipolarAnalogComposite { serrated, line } => 0x08
            + write_leaf::digit(serrated) * 4
            + line_code(line),
        Sync::DigitalComposite { serrated, polarity } => 0x10
            + write_leaf::digit(serrated) * 4
            + polarity_code(polarity),
        Sync::DigitalSeparate {
            horizontal,
            vertical,
        } => 0x18 + polarity_code(vertical) * 2 + polarity_code(horizontal),
    }
}

fn last_of(interlaced: bool, stereo: StereoType, sync: Sync) -> u8
    ensures { result ≡ last_of interlaced stereo sync }
{
    write_leaf::digit(interlaced) * 128 + stereo_code(stereo) + sync_code(sync)
}

// ---- the axes

fn across_blank(h: Across) -> u32
    ensures { result ≡ across_blank h }
{
    h.front.0 as u32 + h.sync.0 as u32 + h.back.0 as u32
}

fn down_blank(v: Down) -> u32
    ensures { result ≡ down_blank v }
{
    v.front.0 as u32 + v.sync.0 as u32 + v.back.0 as u32
}

fn porch_code(h: Across, v: Down) -> u8
    ensures { result ≡ porch_code h v }
{
    (h.front.0 / 256 % 4 * 64
        + h.sync.0 / 256 % 4 * 16
        + v.front.0 / 16 % 4 * 4
        + v.sync.0 / 16 % 4) as u8
}

fn across_excess(h: Across) -> u32
    ensures { (result ≡ across_excess h) × (result ≤ 300) }
{
    h.active.0 as u32 / 4096
        + across_blank(h) / 4096
        + h.front.0 as u32 / 1024
        + h.sync.0 as u32 / 1024
}

fn down_excess(v: Down) -> u32
    ensures { (result ≡ down_excess v) × (result ≤ 3000) }
{
    v.active.0 as u32 / 4096 + down_blank(v) / 4096 + v.front.0 as u32 / 64 + v.sync.0 as u32 / 64
}

fn edge_excess(s: Size, b: Border) -> u32
    ensures { (result ≡ edge_excess s b) × (result ≤ 600) }
{
    s.width as u32 / 4096 + s.height as u32 / 4096 + b.across.0 as u32 / 256 + b.down.0 as u32 / 256
}

// ---- the timing

// 0 exactly where each field has no more than its digits: one sum in the place of a dozen tests.
fn excess(d: DetailedTiming) -> u32
    ensures { result ≡ excess d }
{
    d.clock % 10000
        + d.clock / 655360000
        + across_excess(d.across)
        + down_excess(d.down)
        + edge_excess(d.size, d.border)
}

fn fits_timing(d: DetailedTiming) -> bool
    ensures { result ≡ fits_timing d }
{
    d.clock != 0 && excess(d) == 0
}

// The 18 bytes of a detailed timing.
pub fn timing_bytes(d: DetailedTiming) -> Leaf<18>
    ensures { WritesTiming d result.fits result.bytes }
{
    let fits = fits_timing(d);
    let across = across_blank(d.across);
    let down = down_blank(d.down);
    let porches = porch_code(d.across, d.down);
    let stereo = d.stereo;
    let sync = d.sync;
    let last = last_of(d.interlaced, stereo, sync);
    let bytes = [
        (d.clock / 10000 % 256) as u8,
        (d.clock / 10000 / 256 % 256) as u8,
        (d.across.active.0 % 256) as u8,
        (across % 256) as u8,
        (d.across.active.0 as u32 / 256 % 16 * 16 + across / 256 % 16) as u8,
        (d.down.active.0 % 256) as u8,
        (down % 256) as u8,
        (d.down.active.0 as u32 / 256 % 16 * 16 + down / 256 % 16) as u8,
        (d.across.front.0 % 256) as u8,
        (d.across.sync.0 % 256) as u8,
        (d.down.front.0 % 16 * 16 + d.down.sync.0 % 16) as u8,
        porches,
        (d.size.width % 256) as u8,
        (d.size.height % 256) as u8,
        (d.size.width / 256 % 16 * 16 + d.size.height / 256 % 16) as u8,
        (d.border.across.0 % 256) as u8,
        (d.border.down.0 % 256) as u8,
        last,
    ];
    Leaf { fits, bytes }
}
