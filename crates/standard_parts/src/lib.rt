// What the standard reading makes of the bytes of each field, by E-EDID structures 1.3 and 1.4, and of a ratio by those before them too. Nothing here
// knows where a slot stands: bytes are named by their place in the block or in their slot.
#![tactic(auto)]

ghost use Rattle.std.specs.Prelude.{◌≡◌, ◌≤◌};
ghost use Rattle.shared_record.specs.Established.{established_timings};
ghost use Rattle.standard_parts.specs.Head.{letter_of, maker_of, week_of, depth_of, digital_of, input_of, ratio_alone, image_of, gamma_of, type_of, tells_interface, kind_of, features_of};
ghost use Rattle.standard_parts.specs.Color.{chromaticity_of, point_of};
ghost use Rattle.standard_parts.specs.Structure.{structure_of, since4};
ghost use Rattle.standard_parts.specs.Timings.{flags_of, first_ratio, ratio_of, pair_of};
ghost use Rattle.standard_parts.specs.Descriptors.{to_min, to_max, offsets_of, limits_of, secondary_of, closing_refusal, range_refusal};
ghost use Rattle.standard_parts.specs.Text.{text_length, spaces_or, all_spaces, is_padded};

use shared_record::{EstablishedTimings, SupportedSync};
use standard_record::{
    Chromaticity, Depth, DisplayType, Features, ImageSize, Kind, Limits, Maker, Ratio,
    SecondaryTiming, StandardTiming, VideoInput, Week, WhitePoint,
};
use steps::Span;
use timing::Size;

// The structure of a block: what its revision decides.
#[derive(Clone, Copy)]
pub enum Structure {
    Below3,
    From3,
    From4,
}

#[tactic(auto, using(std::proofs::lemmas::Bool::Decides::nat_tests))]
pub fn structure_of(revision: u8) -> Structure
    ensures { result ≡ structure_of revision }
{
    if revision < 3 {
        return Structure::Below3;
    }
    if revision < 4 {
        return Structure::From3;
    }
    Structure::From4
}

pub fn since_4(structure: Structure) -> bool
    ensures { result ≡ since4 structure }
{
    match structure {
        Structure::Below3 | Structure::From3 => false,
        Structure::From4 => true,
    }
}

// ---- the head

fn letter_of(code: u16) -> u8
    ensures { result ≡ letter_of code }
{
    if 1 <= code {
        if code <= 26 { 64 + code as u8 } else { 0 }
    } else {
        0
    }
}

pub fn maker_of(b8: u8, b9: u8) -> Maker
    ensures { result ≡ maker_of b8 b9 }
{
    let v = bits::word(b9, b8);
    Maker(
        letter_of(bits::digits16(v, 10, 5)),
        letter_of(bits::digits16(v, 5, 5)),
        letter_of(bits::digits16(v, 0, 5)),
    )
}

pub fn week_of(structure: Structure, b16: u8) -> Week
    ensures { result ≡ week_of structure b16 }
{
    if since_4(structure) {
        if b16 == 0xff {
            return Week::ModelYear;
        }
    }
    Week::Made(b16)
}

fn depth_of(code: u8) -> Depth
    requires { code ≤ 7 }
    ensures { result ≡ depth_of code }
{
    match code {
        0 => Depth::Undefined,
        7 => Depth::Reserved,
        _ => Depth::Bits(4 + 2 * code),
    }
}

fn digital_of(structure: Structure, b20: u8) -> VideoInput
    ensures { result ≡ digital_of structure b20 }
{
    if since_4(structure) {
        VideoInput::Interface {
            depth: depth_of(bits::digits(b20, 4, 3)),
            code: bits::digits(b20, 0, 4),
        }
    } else {
        VideoInput::Digital {
            dfp: bits::is_set(b20, 0),
        }
    }
}

#[tactic(auto, unfolding(crate::specs::Head::input_of))]
pub fn input_of(structure: Structure, b20: u8) -> VideoInput
    ensures { result ≡ input_of structure b20 }
{
    if bits::is_set(b20, 7) {
        digital_of(structure, b20)
    } else {
        VideoInput::Analog {
            level: bits::digits(b20, 5, 2),
            setup: bits::is_set(b20, 4),
            sync: SupportedSync {
                serrated: bits::is_set(b20, 3),
                green: bits::is_set(b20, 2),
                composite: bits::is_set(b20, 1),
                separate: bits::is_set(b20, 0),
            },
        }
    }
}

fn ratio_alone(structure: Structure, width: u16, height: u16) -> ImageSize
    ensures { result ≡ ratio_alone structure width height }
{
    if since_4(structure) {
        ImageSize::Ratio(Ratio { width, height })
    } else {
        ImageSize::None
    }
}

#[tactic(auto, unfolding(crate::specs::Head::image_of))]
pub fn image_of(structure: Structure, b21: u8, b22: u8) -> ImageSize
    ensures { result ≡ image_of structure b21 b22 }
{
    if b21 == 0 {
        if b22 == 0 {
            return ImageSize::None;
        }
        return ratio_alone(structure, 100, b22 as u16 + 99);
    }
    if b22 == 0 {
        return ratio_alone(structure, b21 as u16 + 99, 100);
    }
    ImageSize::Some(Size {
        width: b21 as u16 * 10,
        height: b22 as u16 * 10,
    })
}

#[tactic(auto, unfolding(crate::specs::Head::gamma_of))]
pub fn gamma_of(b: u8) -> Option<u16>
    ensures { result ≡ gamma_of b }
{
    if b == 0xff {
        None
    } else {
        Some(b as u16 + 100)
    }
}

fn type_of(code: u8) -> DisplayType
    ensures { result ≡ type_of code }
{
    match code {
        0 => DisplayType::Monochrome,
        1 => DisplayType::RGBColor,
        2 => DisplayType::OtherColor,
        _ => DisplayType::Undefined,
    }
}

pub fn tells_interface(input: VideoInput) -> bool
    ensures { result ≡ tells_interface input }
{
    match input {
        VideoInput::Analog { .. } => false,
        VideoInput::Digital { .. } => false,
        VideoInput::Interface { .. } => true,
    }
}

fn kind_of(encoded: bool, code: u8) -> Kind
    ensures { result ≡ kind_of encoded code }
{
    if encoded {
        Kind::Encodings {
            ycrcb444: bits::is_set(code, 0),
            ycrcb422: bits::is_set(code, 1),
        }
    } else {
        Kind::Typed(type_of(code))
    }
}

#[tactic(auto, unfolding(crate::specs::Head::features_of))]
pub fn features_of(input: VideoInput, b24: u8) -> Features
    ensures { result ≡ features_of input b24 }
{
    Features {
        standby: bits::is_set(b24, 7),
        suspend: bits::is_set(b24, 6),
        lowpower: bits::is_set(b24, 5),
        kind: kind_of(tells_interface(input), bits::digits(b24, 3, 2)),
        srgb: bits::is_set(b24, 2),
        preferred: bits::is_set(b24, 1),
        gtf: bits::is_set(b24, 0),
    }
}

// ---- colour

// The low digits of x and of y are the last four of `low`.
pub fn chromaticity_of(low: u8, x: u8, y: u8) -> Chromaticity
    ensures { result ≡ chromaticity_of low x y }
{
    Chromaticity {
        x: bits::stack(x, bits::digits(low, 2, 2), 2),
        y: bits::stack(y, bits::digits(low, 0, 2), 2),
    }
}

// None where it is not used.
#[tactic(auto, unfolding(crate::specs::Color::point_of))]
pub fn point_of(index: u8, low: u8, x: u8, y: u8, gamma: u8) -> Option<WhitePoint>
    ensures { result ≡ point_of index low x y gamma }
{
    if index == 0 {
        None
    } else {
        Some(WhitePoint {
            index,
            place: chromaticity_of(low, x, y),
            gamma: gamma_of(gamma),
        })
    }
}

// ---- timings

// The flags that are set.
#[tactic(auto, unfolding(crate::specs::Timings::flags_of))]
pub fn established_of(b35: u8, b36: u8, b37: u8) -> EstablishedTimings
    ensures { result ≡ established_timings (flags_of b35 b36 b37) }
{
    shared_record::established_of(bits::word(b35, b36), b37)
}

fn first_ratio(structure: Structure) -> Ratio
    ensures { result ≡ first_ratio structure }
{
    match structure {
        Structure::Below3 => Ratio {
            width: 1,
            height: 1,
        },
        Structure::From3 | Structure::From4 => Ratio {
            width: 16,
            height: 10,
        },
    }
}

fn ratio_of(structure: Structure, code: u8) -> Ratio
    ensures { result ≡ ratio_of structure code }
{
    match code {
        0 => first_ratio(structure),
        1 => Ratio {
            width: 4,
            height: 3,
        },
        2 => Ratio {
            width: 5,
            height: 4,
        },
        _ => Ratio {
            width: 16,
            height: 9,
        },
    }
}

// None where the two bytes say that there is no timing.
#[tactic(auto, unfolding(crate::specs::Timings::pair_of))]
pub fn pair_of(structure: Structure, low: u8, high: u8) -> Option<StandardTiming>
    ensures { result ≡ pair_of structure low high }
{
    if low == 1 && high == 1 {
        None
    } else {
        Some(StandardTiming {
            width: (low as u16 + 31) * 8,
            ratio: ratio_of(structure, bits::digits(high, 6, 2)),
            rate: bits::digits(high, 0, 6) as u16 + 60,
        })
    }
}

// ---- descriptors

pub fn to_min(code: u8) -> u16
    ensures { (result ≡ to_min code) × (result ≤ 255) }
{
    if code == 3 { 255 } else { 0 }
}

pub fn to_max(code: u8) -> u16
    ensures { (result ≡ to_max code) × (result ≤ 255) }
{
    if code < 2 { 0 } else { 255 }
}

pub fn offsets_of(structure: Structure, b4: u8) -> u8
    ensures { result ≡ offsets_of structure b4 }
{
    if since_4(structure) { b4 } else { 0 }
}

#[tactic(auto, unfolding(crate::specs::Descriptors::limits_of))]
pub fn limits_of(offsets: u8, b5: u8, b6: u8, b7: u8, b8: u8, b9: u8) -> Limits
    ensures { result ≡ limits_of offsets b5 b6 b7 b8 b9 }
{
    let v = bits::digits(offsets, 0, 2);
    let h = bits::digits(offsets, 2, 2);
    Limits {
        vmin: b5 as u16 + to_min(v),
        vmax: b6 as u16 + to_max(v),
        hmin: (b7 as u32 + to_min(h) as u32) * 1000,
        hmax: (b8 as u32 + to_max(h) as u32) * 1000,
        clock: b9 as u32 * 10000000,
    }
}

#[tactic(auto, unfolding(crate::specs::Descriptors::secondary_of))]
pub fn secondary_of(
    kind: u8,
    b12: u8,
    b13: u8,
    b14: u8,
    b15: u8,
    b16: u8,
    b17: u8,
    rest: Span,
) -> SecondaryTiming
    ensures { result ≡ secondary_of kind b12 b13 b14 b15 b16 b17 rest }
{
    match kind {
        0 => SecondaryTiming::None,
        2 => SecondaryTiming::GTF {
            start: b12 as u32 * 2000,
            c: b13,
            m: bits::word(b14, b15),
            k: b16,
            j: b17,
        },
        _ => SecondaryTiming::Other { kind, data: rest },
    }
}

// Err: the number of the refusal that the closing bytes give.
#[tactic(auto, unfolding(crate::specs::Descriptors::closing_refusal))]
pub fn closing_refusal(b: u8, spaces: bool) -> Result<(), u8>
    ensures { result ≡ closing_refusal b spaces }
{
    match (b, spaces) {
        (0x0a, true) => Ok(()),
        (0x0a, false) => Err(5),
        _ => Err(4),
    }
}

// The same, of range limits.
#[tactic(auto, unfolding(crate::specs::Descriptors::range_refusal))]
pub fn range_refusal(kind: u8, b11: u8, spaces: bool) -> Result<(), u8>
    ensures { result ≡ range_refusal kind b11 spaces }
{
    match kind {
        0 => closing_refusal(b11, spaces),
        2 if b11 != 0 => Err(4),
        _ => Ok(()),
    }
}

// ---- texts

// The place of the first 0x0a, or the end.
pub fn text_length(s: &[u8]) -> usize
    ensures { result ≡ text_length s.now }
{
    s.iter().position(|b| *b == 0x0a).unwrap_or(s.len())
}

// Each byte is 0x20 or `other`.
fn spaces_or(other: u8, s: &[u8]) -> bool
    ensures { result ≡ spaces_or other s.now }
{
    s.iter().all(|b| *b == 0x20 || *b == other)
}

pub fn all_spaces(s: &[u8]) -> bool
    ensures { result ≡ all_spaces s.now }
{
    spaces_or(0x20, s)
}

pub fn is_padded(s: &[u8], n: usize) -> bool
    ensures { result ≡ is_padded s.now n }
{
    if n < s.len() {
        spaces_or(0x00, &s[n + 1..])
    } else {
        true
    }
}
