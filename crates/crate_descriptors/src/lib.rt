// The descriptor of a slot that holds no timing: what its tag names.
#![tactic(auto)]

ghost use Rattle.std.specs.Prelude.{◌≡◌};
ghost use Rattle.steps.specs.Took.{Took};
ghost use Rattle.crate_descriptors.specs.Descriptors.{spaces, closing, point_of, point, ended, second, points, white, gtf_of, gtf, none, other, secondary, limits_of, range, string_of, string, raw_of, raw, tagged, descriptor};

use crate_record::{Limits, MonitorDescriptor, SecondaryTiming, WhitePoint};
use steps::{Cursor, Refusal, Span};
use tags::Tag;

// The white points of an fb slot.
#[derive(Clone, Copy)]
pub enum Points {
    One(WhitePoint),
    Two(WhitePoint, WhitePoint),
}

// What a descriptor says. Of an fa slot the six pairs are left to be taken.
#[derive(Clone, Copy)]
pub enum Slot {
    Nothing,
    Described(MonitorDescriptor),
    White(Points),
    Six,
}

// n words of 0x2020.
fn take_spaces(c: &mut Cursor, n: usize) -> Result<(), Refusal>
    ensures { Took (spaces n) c.old result c.new }
{
    for _ in 0..n {
        if c.word()? != 0x2020 {
            return Err(Refusal {
                number: 5,
                at: c.at,
            });
        }
    }
    Ok(())
}

// 0x0a, and n words of 0x2020.
pub fn take_closing(c: &mut Cursor, n: usize) -> Result<(), Refusal>
    ensures { Took (closing n) c.old result c.new }
{
    if c.byte()? != 0x0a {
        return Err(Refusal {
            number: 4,
            at: c.at,
        });
    }
    take_spaces(c, n)
}

fn point_of(index: u8, low: u8, x: u8, y: u8, gamma: u8) -> WhitePoint
    ensures { result ≡ point_of index low x y gamma }
{
    WhitePoint {
        index,
        x: crate_record::coordinate_of(x, low, 2),
        y: crate_record::coordinate_of(y, low, 0),
        gamma: crate_record::gamma_of(gamma),
    }
}

fn take_point(c: &mut Cursor) -> Result<WhitePoint, Refusal>
    ensures { Took point c.old result c.new }
{
    let (index, low, x, y) = c.four()?;
    let gamma = c.byte()?;
    Ok(point_of(index, low, x, y, gamma))
}

// Five bytes are skipped, and the points are all there are.
fn take_ended(c: &mut Cursor, ps: Points) -> Result<Points, Refusal>
    ensures { Took (ended ps) c.old result c.new }
{
    crate_text::take_skip(c, 5)?;
    Ok(ps)
}

// The second point, after p.
fn take_second(c: &mut Cursor, p: WhitePoint) -> Result<Points, Refusal>
    ensures { Took (second p) c.old result c.new }
{
    let q = take_point(c)?;
    if q.index == 0 {
        take_ended(c, Points::Two(p, q))
    } else {
        Ok(Points::Two(p, q))
    }
}

fn take_points(c: &mut Cursor) -> Result<Points, Refusal>
    ensures { Took points c.old result c.new }
{
    let p = take_point(c)?;
    if p.index == 0 {
        take_ended(c, Points::One(p))
    } else {
        take_second(c, p)
    }
}

fn take_white(c: &mut Cursor) -> Result<Slot, Refusal>
    ensures { Took white c.old result c.new }
{
    let ps = take_points(c)?;
    take_closing(c, 1)?;
    Ok(Slot::White(ps))
}

fn gtf_of(start: u8, c: u8, m: u16, k: u8, j: u8) -> SecondaryTiming
    ensures { result ≡ gtf_of start c m k j }
{
    SecondaryTiming::GTF {
        start: start as u32 * 2000,
        c: crate_record::half_of(c),
        m: crate_record::whole_of(m),
        k: crate_record::whole_of(k),
        j: crate_record::half_of(j),
    }
}

fn take_gtf(c: &mut Cursor) -> Result<SecondaryTiming, Refusal>
    ensures { Took gtf c.old result c.new }
{
    if c.byte()? != 0x00 {
        return Err(Refusal {
            number: 4,
            at: c.at,
        });
    }
    let (start, x) = c.two()?;
    let m = c.word()?;
    let (k, j) = c.two()?;
    Ok(gtf_of(start, x, m, k, j))
}

fn take_none(c: &mut Cursor) -> Result<SecondaryTiming, Refusal>
    ensures { Took none c.old result c.new }
{
    take_closing(c, 3)?;
    Ok(SecondaryTiming::None)
}

fn take_other(c: &mut Cursor, kind: u8) -> Result<SecondaryTiming, Refusal>
    ensures { Took (other kind) c.old result c.new }
{
    let data = crate_text::take_span(c, 7)?;
    Ok(SecondaryTiming::Other { kind, data })
}

fn take_secondary(c: &mut Cursor, kind: u8) -> Result<SecondaryTiming, Refusal>
    ensures { Took (secondary kind) c.old result c.new }
{
    match kind {
        0x00 => take_none(c),
        0x02 => take_gtf(c),
        _ => take_other(c, kind),
    }
}

fn limits_of(vmin: u8, vmax: u8, hmin: u8, hmax: u8, clock: u8) -> Limits
    ensures { result ≡ limits_of vmin vmax hmin hmax clock }
{
    Limits {
        vmin,
        vmax,
        hmin: hmin as u32 * 1000,
        hmax: hmax as u32 * 1000,
        clock: clock as u32 * 10000000,
    }
}

fn take_range(c: &mut Cursor) -> Result<Slot, Refusal>
    ensures { Took range c.old result c.new }
{
    let (vmin, vmax, hmin, hmax) = c.four()?;
    let (clock, kind) = c.two()?;
    let secondary = take_secondary(c, kind)?;
    let limits = limits_of(vmin, vmax, hmin, hmax, clock);
    Ok(Slot::Described(MonitorDescriptor::RangeLimits { limits, secondary }))
}

#[tactic(auto, unfolding(crate::specs::Descriptors::string_of))]
fn string_of(tag: u8, t: Span) -> MonitorDescriptor
    ensures { result ≡ string_of tag t }
{
    match tag {
        0xfc => MonitorDescriptor::MonitorName(t),
        0xfe => MonitorDescriptor::OtherString(t),
        _ => MonitorDescriptor::SerialNumber(t),
    }
}

fn take_string(c: &mut Cursor, tag: u8) -> Result<Slot, Refusal>
    ensures { Took (string tag) c.old result c.new }
{
    let text = crate_text::take_text(c)?;
    Ok(Slot::Described(string_of(tag, text)))
}

fn raw_of(tag: u8, run: Span) -> MonitorDescriptor
    ensures { result ≡ raw_of tag run }
{
    if tag < 0x10 {
        MonitorDescriptor::ManufacturerDefined { tag, data: run }
    } else {
        MonitorDescriptor::Undefined { tag, data: run }
    }
}

fn take_raw(c: &mut Cursor, tag: u8) -> Result<Slot, Refusal>
    ensures { Took (raw tag) c.old result c.new }
{
    let run = crate_text::take_span(c, 13)?;
    Ok(Slot::Described(raw_of(tag, run)))
}

fn take_tagged(c: &mut Cursor, tag: u8) -> Result<Slot, Refusal>
    ensures { Took (tagged tag) c.old result c.new }
{
    match tags::tag_of(tag) {
        Tag::Dummy => Ok(Slot::Nothing),
        Tag::Pairs => Ok(Slot::Six),
        Tag::Points => take_white(c),
        Tag::Range => take_range(c),
        Tag::Name | Tag::Text | Tag::Serial => take_string(c, tag),
        Tag::Raw => take_raw(c, tag),
    }
}

pub fn take_descriptor(c: &mut Cursor) -> Result<Slot, Refusal>
    ensures { Took descriptor c.old result c.new }
{
    let (tag, _) = c.two()?;
    take_tagged(c, tag)
}
