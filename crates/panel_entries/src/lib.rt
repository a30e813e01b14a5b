// What the lines of the slots say in a panel's text.
#![tactic(auto)]

ghost use Rattle.std.specs.Prelude.{◌≡◌};
ghost use Rattle.panel_entries.specs.Entries as entries;

use standard_record::{
    Descriptor, DetailedTiming, Held, HeldPair, HeldPoint, HeldTiming, Limits, Ratio,
    SecondaryTiming, StandardTiming, Sync, SyncLine, WhitePoint,
};
use steps::Span;
use text_kinds::Kept;
use timing::{Across, Border, Down, Lines, Pixels, Size, StereoType};

// ---- white points and standard timings

#[tactic(auto, unfolding(crate::specs::Entries::point_of))]
pub fn point(l: &[u8]) -> HeldPoint
    ensures { result ≡ entries.point_of l.now }
{
    let point = WhitePoint {
        index: text_kinds::number(l, 1),
        place: panel_front::place(l, 2, 3),
        gamma: panel_front::gamma(l, 4),
    };
    HeldPoint {
        point,
        slot: text_kinds::number(l, 5),
    }
}

#[tactic(auto, unfolding(crate::specs::Entries::pair_of))]
pub fn pair(l: &[u8]) -> HeldPair
    ensures { result ≡ entries.pair_of l.now }
{
    let width = text_kinds::number(l, 1);
    let ratio = Ratio {
        width: text_kinds::number(l, 2),
        height: text_kinds::number(l, 3),
    };
    let pair = StandardTiming {
        width,
        ratio,
        rate: text_kinds::number(l, 4),
    };
    HeldPair {
        pair,
        slot: text_kinds::number(l, 5),
    }
}

// ---- detailed timings

#[tactic(auto, unfolding(crate::specs::Entries::stereo_by))]
fn stereo_by(n: u8) -> StereoType
    ensures { result ≡ entries.stereo_by n }
{
    match n {
        0 => StereoType::None,
        1 => StereoType::SequentialRightSync,
        2 => StereoType::SequentialLeftSync,
        3 => StereoType::InterleavedLinesRightEven,
        4 => StereoType::InterleavedLinesLeftEven,
        5 => StereoType::Interleaved4Way,
        _ => StereoType::SideBySide,
    }
}

fn line_by(rgb: bool) -> SyncLine
    ensures { result ≡ entries.line_by rgb }
{
    if rgb { SyncLine::RGB } else { SyncLine::Green }
}

#[tactic(auto, unfolding(crate::specs::Entries::sync_by))]
fn sync_by(n: u8, a: bool, b: bool) -> Sync
    ensures { result ≡ entries.sync_by n a b }
{
    match n {
        0 => Sync::AnalogComposite {
            serrated: a,
            line: line_by(b),
        },
        1 => Sync::BipolarAnalogComposite {
            serrated: a,
            line: line_by(b),
        },
        2 => Sync::DigitalComposite {
            serrated: a,
            polarity: timing::polarity_of(b),
        },
        _ => Sync::DigitalSeparate {
            horizontal: timing::polarity_of(a),
            vertical: timing::polarity_of(b),
        },
    }
}

#[tactic(auto, unfolding(crate::specs::Entries::timing_of))]
fn timing(l: &[u8]) -> DetailedTiming
    ensures { result ≡ entries.timing_of l.now }
{
    let across = Across {
        active: Pixels(text_kinds::number(l, 2)),
        front: Pixels(text_kinds::number(l, 4)),
        sync: Pixels(text_kinds::number(l, 6)),
        back: Pixels(text_kinds::number(l, 8)),
    };
    let down = Down {
        active: Lines(text_kinds::number(l, 3)),
        front: Lines(text_kinds::number(l, 5)),
        sync: Lines(text_kinds::number(l, 7)),
        back: Lines(text_kinds::number(l, 9)),
    };
    let size = Size {
        width: text_kinds::number(l, 10),
        height: text_kinds::number(l, 11),
    };
    let border = Border {
        across: Pixels(text_kinds::number(l, 12)),
        down: Lines(text_kinds::number(l, 13)),
    };
    let sync = sync_by(
        text_kinds::number(l, 16),
        text_kinds::flag(l, 17),
        text_kinds::flag(l, 18),
    );
    DetailedTiming {
        clock: text_kinds::number(l, 1),
        across,
        down,
        size,
        border,
        interlaced: text_kinds::flag(l, 14),
        stereo: stereo_by(text_kinds::number(l, 15)),
        sync,
    }
}

#[tactic(auto, unfolding(crate::specs::Entries::held_timing_of))]
pub fn held_timing(l: &[u8]) -> HeldTiming
    ensures { result ≡ entries.held_timing_of l.now }
{
    HeldTiming {
        timing: timing(l),
        slot: text_kinds::number(l, 19),
    }
}

// ---- descriptors

#[tactic(auto, unfolding(crate::specs::Entries::kept_in))]
pub fn kept(l: &[u8]) -> Option<Kept>
    ensures { result ≡ entries.kept_in l.now }
{
    if text_kinds::is_word(l, 0, b"undefined") {
        return text_kinds::run(l, 2);
    }
    if text_kinds::is_word(l, 0, b"maker") {
        return text_kinds::run(l, 2);
    }
    if text_kinds::is_word(l, 6, b"other") {
        return text_kinds::run(l, 8);
    }
    text_kinds::text(l, 1)
}

#[tactic(auto, unfolding(crate::specs::Entries::limits_of))]
fn limits(l: &[u8]) -> Limits
    ensures { result ≡ entries.limits_of l.now }
{
    Limits {
        vmin: text_kinds::number(l, 1),
        vmax: text_kinds::number(l, 2),
        hmin: text_kinds::number(l, 3),
        hmax: text_kinds::number(l, 4),
        clock: text_kinds::number(l, 5),
    }
}

fn entry(l: &[u8], k: usize, descriptor: Descriptor) -> Held
    ensures { result ≡ entries.entry_at l.now k descriptor }
{
    Held {
        descriptor,
        slot: text_kinds::number(l, k),
    }
}

#[tactic(auto, unfolding(crate::specs::Entries::range_of))]
fn range(l: &[u8], t: Span) -> Held
    ensures { result ≡ entries.range_of l.now t }
{
    let limits = limits(l);
    if text_kinds::is_word(l, 6, b"none") {
        let secondary = SecondaryTiming::None;
        return entry(l, 7, Descriptor::Range { limits, secondary });
    }
    if text_kinds::is_word(l, 6, b"gtf") {
        let secondary = SecondaryTiming::GTF {
            start: text_kinds::number(l, 7),
            c: text_kinds::number(l, 8),
            m: text_kinds::number(l, 9),
            k: text_kinds::number(l, 10),
            j: text_kinds::number(l, 11),
        };
        return entry(l, 12, Descriptor::Range { limits, secondary });
    }
    let secondary = SecondaryTiming::Other {
        kind: text_kinds::number(l, 7),
        data: t,
    };
    entry(l, 9, Descriptor::Range { limits, secondary })
}

#[tactic(auto, unfolding(crate::specs::Entries::held_by))]
fn held_by(l: &[u8], t: Span) -> Held
    ensures { result ≡ entries.held_by l.now t }
{
    if text_kinds::is_word(l, 0, b"serial") {
        return entry(l, 2, Descriptor::Serial(t));
    }
    if text_kinds::is_word(l, 0, b"text") {
        return entry(l, 2, Descriptor::Text(t));
    }
    if text_kinds::is_word(l, 0, b"name") {
        return entry(l, 2, Descriptor::Name(t));
    }
    if text_kinds::is_word(l, 0, b"undefined") {
        let tag = text_kinds::number(l, 1);
        return entry(l, 3, Descriptor::Undefined { tag, data: t });
    }
    if text_kinds::is_word(l, 0, b"maker") {
        let tag = text_kinds::number(l, 1);
        return entry(l, 3, Descriptor::MakerDefined { tag, data: t });
    }
    range(l, t)
}

// Its bytes are kept from `at` on.
#[tactic(auto, unfolding(crate::specs::Entries::held_of, crate::specs::Entries::span_of))]
pub fn held(l: &[u8], at: usize) -> Held
    ensures { result ≡ entries.held_of l.now at }
{
    let len = kept(l).map_or(0, |kept| kept.len);
    held_by(l, Span { start: at, len })
}
