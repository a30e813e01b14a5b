// The block's first 35 bytes: header, product, version, display and chromaticities. Each reader follows a `parse` of the source.
#![tactic(auto)]

ghost use Rattle.std.specs.Prelude.{◌≡◌};
ghost use Rattle.steps.specs.Took.{Took};
ghost use Rattle.crate_head.specs.Head.{header, maker_of, maker, date, product, version, input_of, input, size_of, gamma_from, kind_of, dpms_of, dpms, display, color, front};

use crate_record::{
    Chromaticities, Chromaticity, DPMSFeatures, DisplayParameters, DisplayType, ImageSize,
    ManufactureDate, ManufacturerID, ProductInformation, VideoInput,
};
use shared_record::{SupportedSync, Version};
use steps::{Cursor, Refusal};

// All of it.
#[derive(Clone, Copy)]
pub struct Front {
    pub product: ProductInformation,
    pub version: Version,
    pub display: DisplayParameters,
    pub basic: Chromaticities,
}

// Two fields of four bytes; each is judged once it is taken.
pub fn take_header(c: &mut Cursor) -> Result<(), Refusal>
    ensures { Took header c.old result c.new }
{
    let a = c.long()?;
    if a != 0xffffff00 {
        return Err(Refusal {
            number: 2,
            at: c.at,
        });
    }
    let b = c.long()?;
    if b != 0x00ffffff {
        return Err(Refusal {
            number: 2,
            at: c.at,
        });
    }
    Ok(())
}

fn maker_of(k: u16) -> ManufacturerID
    ensures { result ≡ maker_of k }
{
    let c1 = bits::digits16(k, 10, 5) as u8;
    let c2 = bits::digits16(k, 5, 5) as u8;
    let c3 = bits::digits16(k, 0, 5) as u8;
    ManufacturerID(c1, c2, c3)
}

fn take_maker(c: &mut Cursor) -> Result<ManufacturerID, Refusal>
    ensures { Took maker c.old result c.new }
{
    let k = c.word()?;
    Ok(maker_of(k))
}

fn take_date(c: &mut Cursor) -> Result<ManufactureDate, Refusal>
    ensures { Took date c.old result c.new }
{
    let (week, year) = c.two()?;
    Ok(ManufactureDate {
        week,
        year: year as u16 + 1990,
    })
}

fn take_product(c: &mut Cursor) -> Result<ProductInformation, Refusal>
    ensures { Took product c.old result c.new }
{
    Ok(ProductInformation {
        maker: take_maker(c)?,
        code: c.word()?,
        serial: c.long()?,
        date: take_date(c)?,
    })
}

fn take_version(c: &mut Cursor) -> Result<Version, Refusal>
    ensures { Took version c.old result c.new }
{
    let (version, revision) = c.two()?;
    Ok(Version { version, revision })
}

#[tactic(auto, unfolding(crate::specs::Head::input_of))]
fn input_of(val: u8) -> VideoInput
    ensures { result ≡ input_of val }
{
    if bits::is_set(val, 7) {
        return VideoInput::Digital {
            dfp: bits::is_set(val, 0),
        };
    }
    VideoInput::Analog {
        level: crate_record::level_of(bits::digits(val, 5, 2)),
        setup: bits::is_set(val, 4),
        sync: SupportedSync {
            serrated: bits::is_set(val, 3),
            green: bits::is_set(val, 2),
            composite: bits::is_set(val, 1),
            separate: bits::is_set(val, 0),
        },
    }
}

fn take_input(c: &mut Cursor) -> Result<VideoInput, Refusal>
    ensures { Took input c.old result c.new }
{
    Ok(input_of(c.byte()?))
}

#[tactic(auto, unfolding(crate::specs::Head::size_of))]
fn size_of(width: u8, height: u8) -> Option<ImageSize>
    ensures { result ≡ size_of width height }
{
    if width == 0 || height == 0 {
        return None;
    }
    Some(ImageSize {
        width: crate_record::whole_of(width),
        height: crate_record::whole_of(height),
    })
}

#[tactic(auto, unfolding(crate::specs::Head::gamma_from))]
fn gamma_from(val: u8) -> Option<f32>
    ensures { result ≡ gamma_from val }
{
    if val == 0xff {
        None
    } else {
        Some(crate_record::gamma_of(val))
    }
}

fn kind_of(code: u8) -> DisplayType
    ensures { result ≡ kind_of code }
{
    match code {
        0 => DisplayType::Monochrome,
        1 => DisplayType::RGBColor,
        2 => DisplayType::OtherColor,
        _ => DisplayType::Undefined,
    }
}

#[tactic(auto, unfolding(crate::specs::Head::dpms_of))]
fn dpms_of(val: u8) -> DPMSFeatures
    ensures { result ≡ dpms_of val }
{
    DPMSFeatures {
        standby: bits::is_set(val, 7),
        suspend: bits::is_set(val, 6),
        lowpower: bits::is_set(val, 5),
        kind: kind_of(bits::digits(val, 3, 2)),
        srgb: bits::is_set(val, 2),
        preferred: bits::is_set(val, 1),
        gtf: bits::is_set(val, 0),
    }
}

fn take_dpms(c: &mut Cursor) -> Result<DPMSFeatures, Refusal>
    ensures { Took dpms c.old result c.new }
{
    Ok(dpms_of(c.byte()?))
}

fn take_display(c: &mut Cursor) -> Result<DisplayParameters, Refusal>
    ensures { Took display c.old result c.new }
{
    let input = take_input(c)?;
    let (width, height) = c.two()?;
    Ok(DisplayParameters {
        input,
        size: size_of(width, height),
        gamma: gamma_from(c.byte()?),
        dpms: take_dpms(c)?,
    })
}

#[inline(always)]
fn take_color(c: &mut Cursor) -> Result<Chromaticities, Refusal>
    ensures { Took color c.old result c.new }
{
    let (rg, bw) = c.two()?;
    let (rx, ry, gx, gy) = c.four()?;
    let (bx, by, wx, wy) = c.four()?;
    Ok(Chromaticities {
        red: Chromaticity {
            x: crate_record::coordinate_of(rx, rg, 6),
            y: crate_record::coordinate_of(ry, rg, 4),
        },
        green: Chromaticity {
            x: crate_record::coordinate_of(gx, rg, 2),
            y: crate_record::coordinate_of(gy, rg, 0),
        },
        blue: Chromaticity {
            x: crate_record::coordinate_of(bx, bw, 6),
            y: crate_record::coordinate_of(by, bw, 4),
        },
        white: Chromaticity {
            x: crate_record::coordinate_of(wx, bw, 2),
            y: crate_record::coordinate_of(wy, bw, 0),
        },
    })
}

pub fn take_front(c: &mut Cursor) -> Result<Front, Refusal>
    ensures { Took front c.old result c.new }
{
    take_header(c)?;
    Ok(Front {
        product: take_product(c)?,
        version: take_version(c)?,
        display: take_display(c)?,
        basic: take_color(c)?,
    })
}
