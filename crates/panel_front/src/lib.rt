// What the lines of a panel's text say, but for those of its slots.
#![tactic(auto)]

ghost use Rattle.std.specs.Prelude.{◌≡◌};
ghost use Rattle.panel_front.specs.Front as front;

use shared_record::{SupportedSync, Version};
use standard_record::{
    Chromaticities, Chromaticity, Depth, DisplayType, Features, ImageSize, Kind, Maker, Product,
    Ratio, VideoInput, Week,
};
use timing::Size;

// ---- product and version

#[tactic(auto, unfolding(crate::specs::Front::week_of))]
fn week(l: &[u8]) -> Week
    ensures { result ≡ front.week_of l.now }
{
    if text_kinds::is_word(l, 6, b"model") {
        Week::ModelYear
    } else {
        Week::Made(text_kinds::number(l, 6))
    }
}

#[tactic(auto, unfolding(crate::specs::Front::product_of))]
pub fn product(l: &[u8]) -> Product
    ensures { result ≡ front.product_of l.now }
{
    let first = text_kinds::letter(l, 1);
    let second = text_kinds::letter(l, 2);
    let third = text_kinds::letter(l, 3);
    Product {
        maker: Maker(first, second, third),
        code: text_kinds::number(l, 4),
        serial: text_kinds::number(l, 5),
        week: week(l),
        year: text_kinds::number(l, 7),
    }
}

#[tactic(auto, unfolding(crate::specs::Front::version_of))]
pub fn version(l: &[u8]) -> Version
    ensures { result ≡ front.version_of l.now }
{
    Version {
        version: text_kinds::number(l, 1),
        revision: text_kinds::number(l, 2),
    }
}

// ---- display

#[tactic(auto, unfolding(crate::specs::Front::depth_of))]
fn depth(l: &[u8]) -> Depth
    ensures { result ≡ front.depth_of l.now }
{
    if text_kinds::is_word(l, 1, b"undefined") {
        return Depth::Undefined;
    }
    if text_kinds::is_word(l, 1, b"reserved") {
        return Depth::Reserved;
    }
    Depth::Bits(text_kinds::number(l, 1))
}

#[tactic(auto, unfolding(crate::specs::Front::analog_of))]
fn analog(l: &[u8]) -> VideoInput
    ensures { result ≡ front.analog_of l.now }
{
    let sync = SupportedSync {
        serrated: text_kinds::flag(l, 3),
        green: text_kinds::flag(l, 4),
        composite: text_kinds::flag(l, 5),
        separate: text_kinds::flag(l, 6),
    };
    VideoInput::Analog {
        level: text_kinds::number(l, 1),
        setup: text_kinds::flag(l, 2),
        sync,
    }
}

#[tactic(auto, unfolding(crate::specs::Front::input_of))]
pub fn input(l: &[u8]) -> VideoInput
    ensures { result ≡ front.input_of l.now }
{
    if text_kinds::is_word(l, 0, b"analog") {
        return analog(l);
    }
    if text_words::last_word(l, 1) {
        return VideoInput::Digital {
            dfp: text_kinds::flag(l, 1),
        };
    }
    VideoInput::Interface {
        depth: depth(l),
        code: text_kinds::number(l, 2),
    }
}

#[tactic(auto, unfolding(crate::specs::Front::size_of))]
pub fn size(l: &[u8]) -> ImageSize
    ensures { result ≡ front.size_of l.now }
{
    if text_kinds::is_word(l, 1, b"none") {
        return ImageSize::None;
    }
    if text_kinds::is_word(l, 1, b"ratio") {
        return ImageSize::Ratio(Ratio {
            width: text_kinds::number(l, 2),
            height: text_kinds::number(l, 3),
        });
    }
    ImageSize::Some(Size {
        width: text_kinds::number(l, 1),
        height: text_kinds::number(l, 2),
    })
}

// The word at k.
#[tactic(auto, unfolding(crate::specs::Front::gamma_at))]
pub fn gamma(l: &[u8], k: usize) -> Option<u16>
    ensures { result ≡ front.gamma_at l.now k }
{
    if text_kinds::is_word(l, k, b"none") {
        None
    } else {
        Some(text_kinds::number(l, k))
    }
}

#[tactic(auto, unfolding(crate::specs::Front::type_of))]
fn type_of(n: u8) -> DisplayType
    ensures { result ≡ front.type_of n }
{
    match n {
        0 => DisplayType::Monochrome,
        1 => DisplayType::RGBColor,
        2 => DisplayType::OtherColor,
        _ => DisplayType::Undefined,
    }
}

#[tactic(auto, unfolding(crate::specs::Front::kind_of))]
fn kind(l: &[u8]) -> Kind
    ensures { result ≡ front.kind_of l.now }
{
    if text_kinds::is_word(l, 4, b"e0") {
        return Kind::Encodings {
            ycrcb444: false,
            ycrcb422: false,
        };
    }
    if text_kinds::is_word(l, 4, b"e1") {
        return Kind::Encodings {
            ycrcb444: true,
            ycrcb422: false,
        };
    }
    if text_kinds::is_word(l, 4, b"e2") {
        return Kind::Encodings {
            ycrcb444: false,
            ycrcb422: true,
        };
    }
    if text_kinds::is_word(l, 4, b"e3") {
        return Kind::Encodings {
            ycrcb444: true,
            ycrcb422: true,
        };
    }
    Kind::Typed(type_of(text_kinds::number(l, 4)))
}

#[tactic(auto, unfolding(crate::specs::Front::features_of))]
pub fn features(l: &[u8]) -> Features
    ensures { result ≡ front.features_of l.now }
{
    Features {
        standby: text_kinds::flag(l, 1),
        suspend: text_kinds::flag(l, 2),
        lowpower: text_kinds::flag(l, 3),
        kind: kind(l),
        srgb: text_kinds::flag(l, 5),
        preferred: text_kinds::flag(l, 6),
        gtf: text_kinds::flag(l, 7),
    }
}

// ---- colour

// The words at j and k.
pub fn place(l: &[u8], j: usize, k: usize) -> Chromaticity
    ensures { result ≡ front.place_at l.now j k }
{
    Chromaticity {
        x: text_kinds::number(l, j),
        y: text_kinds::number(l, k),
    }
}

#[tactic(auto, unfolding(crate::specs::Front::chroma_of))]
pub fn chroma(l: &[u8]) -> Chromaticities
    ensures { result ≡ front.chroma_of l.now }
{
    Chromaticities {
        red: place(l, 1, 2),
        green: place(l, 3, 4),
        blue: place(l, 5, 6),
        white: place(l, 7, 8),
    }
}
