// The first 38 bytes of a block: header, product, version, display, colours and the established flags.
#![tactic(auto)]

ghost use Rattle.std.specs.Prelude.{◌≡◌, length, take, ◌≤◌};
ghost use Rattle.write_parts.specs.Point.{place_low};
ghost use Rattle.standard_record.specs.declared.ImageSize.TheVariants as Image;
ghost use Rattle.write_head.specs.Head.{WritesMaker, week_byte, depth_code, WritesInput, image_bytes, WritesImage, type_code, kind_code, WritesFeatures};
ghost use Rattle.write_head.specs.Tests.{week_fits, between, depth_fits, ratio_fits, image_fits, kind_fits};
ghost use Rattle.write_head.specs.Flags.{total, same_list, WritesFlags};
ghost use Rattle.write_head.specs.Front.{MakesNumbers, color_excess, MakesColors, all_fit, WritesFront};

use shared_record::{EstablishedTimings, Version};
use standard_parts::Structure;
use standard_record::{
    Chromaticities, Chromaticity, Depth, Display, DisplayType, Features, ImageSize, Kind, Maker,
    Product, Ratio, VideoInput, Week,
};
use write_leaf::{Leaf, OneByte, TwoBytes};

// Code, serial number, week and year. No Option: `made` of `Writes` tells of the bytes where they do not fit too.
#[derive(Clone, Copy)]
struct NumberBytes {
    fits: bool,
    b10: u8,
    b11: u8,
    b12: u8,
    b13: u8,
    b14: u8,
    b15: u8,
    b16: u8,
    b17: u8,
}

// No Option: `made` of `Writes` tells of the bytes where they do not fit too.
#[derive(Clone, Copy)]
struct ColorBytes {
    fits: bool,
    b25: u8,
    b26: u8,
    b27: u8,
    b28: u8,
    b29: u8,
    b30: u8,
    b31: u8,
    b32: u8,
    b33: u8,
    b34: u8,
}

// No Option: `made` of `Writes` tells of the bytes where they do not fit too.
#[derive(Clone, Copy)]
struct FlagBytes {
    fits: bool,
    b35: u8,
    b36: u8,
    b37: u8,
}

// ---- product

// The letters are read again, and compared.
fn maker_bytes(m: Maker) -> TwoBytes
    ensures { WritesMaker m result.fits (result.first, result.second) }
{
    let word = m.0 as u16 % 32 * 1024 + m.1 as u16 % 32 * 32 + m.2 as u16 % 32;
    let first = (word / 256 % 256) as u8;
    let second = (word % 256) as u8;
    let again = standard_parts::maker_of(first, second);
    let fits = write_leaf::digit(again.0 == m.0)
        + write_leaf::digit(again.1 == m.1)
        + write_leaf::digit(again.2 == m.2)
        == 3;
    TwoBytes {
        fits,
        first,
        second,
    }
}

fn between(low: u16, high: u16, n: u16) -> bool
    ensures { result ≡ between low high n }
{
    write_leaf::digit(low <= n) + write_leaf::digit(n <= high) == 2
}

fn week_byte(structure: Structure, w: Week) -> OneByte
    ensures { (result.fits ≡ week_fits structure w) × (result.byte ≡ week_byte w) }
{
    let new = standard_parts::since_4(structure);
    match w {
        Week::Made(week) => OneByte {
            fits: !(new & (week == 0xff)),
            byte: week,
        },
        Week::ModelYear => OneByte {
            fits: new,
            byte: 0xff,
        },
    }
}

fn number_bytes(structure: Structure, p: Product) -> NumberBytes
    ensures { MakesNumbers structure p result }
{
    let week = p.week;
    let week = week_byte(structure, week);
    NumberBytes {
        fits: write_leaf::digit(between(1990, 2245, p.year)) + write_leaf::digit(week.fits) == 2,
        b10: (p.code % 256) as u8,
        b11: (p.code / 256 % 256) as u8,
        b12: (p.serial % 256) as u8,
        b13: (p.serial / 256 % 256) as u8,
        b14: (p.serial / 65536 % 256) as u8,
        b15: (p.serial / 16777216 % 256) as u8,
        b16: week.byte,
        b17: ((p.year as u32 + 58) % 256) as u8,
    }
}

// ---- display

fn depth_code(d: Depth) -> u8
    ensures { (result ≡ depth_code d) × (result ≤ 7) }
{
    match d {
        Depth::Undefined => 0,
        Depth::Bits(n) => (n / 2 + 6) % 8,
        Depth::Reserved => 7,
    }
}

// An even number of 6 to 16, or none.
fn depth_fits(d: Depth) -> bool
    ensures { result ≡ depth_fits d }
{
    match d {
        Depth::Undefined => true,
        Depth::Bits(n) => {
            write_leaf::digit(between(6, 16, n as u16)) + write_leaf::digit(n % 2 == 0) == 2
        }
        Depth::Reserved => true,
    }
}

fn input_byte(structure: Structure, v: VideoInput) -> OneByte
    ensures { WritesInput structure v result.fits result.byte }
{
    let new = standard_parts::since_4(structure);
    match v {
        VideoInput::Digital { dfp } => OneByte {
            fits: !new,
            byte: 128 + write_leaf::digit(dfp),
        },
        VideoInput::Interface { depth, code } => OneByte {
            fits: write_leaf::digit(new)
                + write_leaf::digit(depth_fits(depth))
                + write_leaf::digit(code <= 15)
                == 3,
            byte: 128 + depth_code(depth) * 16 + code % 16,
        },
        VideoInput::Analog { level, setup, sync } => OneByte {
            fits: level <= 3,
            byte: level % 4 * 32
                + write_leaf::digit(setup) * 16
                + write_leaf::digit(sync.serrated) * 8
                + write_leaf::digit(sync.green) * 4
                + write_leaf::digit(sync.composite) * 2
                + write_leaf::digit(sync.separate),
        },
    }
}

fn ratio_fits(r: Ratio) -> bool
    ensures { result ≡ ratio_fits r }
{
    if r.height == 100 {
        between(100, 354, r.width)
    } else {
        write_leaf::digit(r.width == 100) + write_leaf::digit(between(100, 354, r.height)) == 2
    }
}

// The number that is not 100, less 99, in the place of its axis.
fn ratio_bytes(structure: Structure, r: Ratio) -> TwoBytes
    ensures { (result.fits ≡ image_fits structure (Image.Ratio r)) × ((result.first, result.second) ≡ image_bytes (Image.Ratio r)) }
{
    let fits = write_leaf::digit(standard_parts::since_4(structure))
        + write_leaf::digit(ratio_fits(r))
        == 2;
    if r.height == 100 {
        TwoBytes {
            fits,
            first: ((r.width as u32 + 157) % 256) as u8,
            second: 0,
        }
    } else {
        TwoBytes {
            fits,
            first: 0,
            second: ((r.height as u32 + 157) % 256) as u8,
        }
    }
}

// Tens of 10 to 2550 both ways, a ratio, or none.
fn image_bytes(structure: Structure, z: ImageSize) -> TwoBytes
    ensures { WritesImage structure z result.fits (result.first, result.second) }
{
    match z {
        ImageSize::None => TwoBytes {
            fits: true,
            first: 0,
            second: 0,
        },
        ImageSize::Some(s) => TwoBytes {
            fits: write_leaf::digit(10 <= s.width)
                + write_leaf::digit(10 <= s.height)
                + write_leaf::digit(
                    s.width % 10 + s.height % 10 + s.width / 2551 + s.height / 2551 == 0,
                )
                == 3,
            first: (s.width / 10 % 256) as u8,
            second: (s.height / 10 % 256) as u8,
        },
        ImageSize::Ratio(r) => ratio_bytes(structure, r),
    }
}

fn type_code(k: DisplayType) -> u8
    ensures { (result ≡ type_code k) × (result ≤ 3) }
{
    match k {
        DisplayType::Monochrome => 0,
        DisplayType::RGBColor => 1,
        DisplayType::OtherColor => 2,
        DisplayType::Undefined => 3,
    }
}

fn kind_code(k: Kind) -> u8
    ensures { (result ≡ kind_code k) × (result ≤ 3) }
{
    match k {
        Kind::Typed(t) => type_code(t),
        Kind::Encodings { ycrcb444, ycrcb422 } => {
            write_leaf::digit(ycrcb444) + 2 * write_leaf::digit(ycrcb422)
        }
    }
}

fn kind_fits(encoded: bool, k: Kind) -> bool
    ensures { result ≡ kind_fits encoded k }
{
    match k {
        Kind::Typed(_) => !encoded,
        Kind::Encodings { .. } => encoded,
    }
}

fn features_byte(input: VideoInput, f: Features) -> OneByte
    ensures { WritesFeatures input f result.fits result.byte }
{
    let kind = f.kind;
    OneByte {
        fits: kind_fits(standard_parts::tells_interface(input), kind),
        byte: write_leaf::digit(f.standby) * 128
            + write_leaf::digit(f.suspend) * 64
            + write_leaf::digit(f.lowpower) * 32
            + kind_code(kind) * 8
            + write_leaf::digit(f.srgb) * 4
            + write_leaf::digit(f.preferred) * 2
            + write_leaf::digit(f.gtf),
    }
}

// ---- colours

fn place_low(c: Chromaticity) -> u8
    ensures { (result ≡ place_low c.x c.y) × (result ≤ 15) }
{
    (c.x % 4 * 4 + c.y % 4) as u8
}

// 0 exactly where each is below 1024: one sum in the place of eight tests.
fn color_excess(c: Chromaticities) -> u16
    ensures { result ≡ color_excess c }
{
    c.red.x / 1024
        + c.red.y / 1024
        + c.green.x / 1024
        + c.green.y / 1024
        + c.blue.x / 1024
        + c.blue.y / 1024
        + c.white.x / 1024
        + c.white.y / 1024
}

fn color_bytes(c: Chromaticities) -> ColorBytes
    ensures { MakesColors c result }
{
    ColorBytes {
        fits: color_excess(c) == 0,
        b25: place_low(c.red) * 16 + place_low(c.green),
        b26: place_low(c.blue) * 16 + place_low(c.white),
        b27: (c.red.x / 4 % 256) as u8,
        b28: (c.red.y / 4 % 256) as u8,
        b29: (c.green.x / 4 % 256) as u8,
        b30: (c.green.y / 4 % 256) as u8,
        b31: (c.blue.x / 4 % 256) as u8,
        b32: (c.blue.y / 4 % 256) as u8,
        b33: (c.white.x / 4 % 256) as u8,
        b34: (c.white.y / 4 % 256) as u8,
    }
}

// ---- established flags

fn total(t: &[u8]) -> u32
    requires { length t.now ≤ 17 }
    ensures { result ≡ total t.now }
{
    let mut sum: u32 = 0;
    for n in t {
        sum += 1 << (*n % 17);
    }
    sum
}

#[tactic(auto, using(crate::proofs::Flags::same_is))]
fn same(a: &[u8], b: &[u8]) -> bool
    ensures { result ≡ same_list a.now b.now }
{
    a == b
}

// The first `len`, as far as there are any.
fn shown(items: &[u8; 17], len: usize) -> &[u8]
    ensures { (result.now ≡ take len items.now) × (length result.now ≤ 17) }
{
    bits::part(items, 0, len)
}

// The flags are read again, and compared.
fn flag_bytes(e: EstablishedTimings) -> FlagBytes
    ensures { WritesFlags (take e.len e.items) result.fits (result.b35, result.b36, result.b37) }
{
    let items = e.items;
    let listed = shown(&items, e.len);
    let sum = total(listed);
    let b35 = (sum % 256) as u8;
    let b36 = (sum / 256 % 256) as u8;
    let b37 = (sum / 65536 % 2 * 128) as u8;
    let read = standard_parts::established_of(b35, b36, b37);
    let again = read.items;
    let fits = same(shown(&again, read.len), listed);
    FlagBytes {
        fits,
        b35,
        b36,
        b37,
    }
}

// ---- the front

// How many fit, in the place of a chain of tests.
fn all_fit(a: bool, b: bool, c: bool, d: bool, e: bool, f: bool, g: bool, h: bool, i: bool) -> bool
    ensures { result ≡ all_fit a b c d e f g h i }
{
    write_leaf::digit(a)
        + write_leaf::digit(b)
        + write_leaf::digit(c)
        + write_leaf::digit(d)
        + write_leaf::digit(e)
        + write_leaf::digit(f)
        + write_leaf::digit(g)
        + write_leaf::digit(h)
        + write_leaf::digit(i)
        == 9
}

// The first 38 bytes of a block that shows these.
pub fn front_bytes(
    product: Product,
    version: Version,
    display: Display,
    basic: Chromaticities,
    established: EstablishedTimings,
) -> Leaf<38>
    ensures { WritesFront (record { product = product; version = version; display = display; basic = basic; established = take established.len established.items }) result.fits result.bytes }
{
    let structure = standard_parts::structure_of(version.revision);
    let maker = maker_bytes(product.maker);
    let n = number_bytes(structure, product);
    let video = display.input;
    let input = input_byte(structure, video);
    let size = display.size;
    let size = image_bytes(structure, size);
    let gamma = display.gamma;
    let gamma = write_parts::gamma_byte(gamma);
    let features = features_byte(video, display.features);
    let c = color_bytes(basic);
    let flags = flag_bytes(established);
    let fits = all_fit(
        maker.fits,
        n.fits,
        version.version == 1,
        input.fits,
        size.fits,
        gamma.fits,
        features.fits,
        c.fits,
        flags.fits,
    );
    let bytes = [
        0x00,
        0xff,
        0xff,
        0xff,
        0xff,
        0xff,
        0xff,
        0x00,
        maker.first,
        maker.second,
        n.b10,
        n.b11,
        n.b12,
        n.b13,
        n.b14,
        n.b15,
        n.b16,
        n.b17,
        version.version,
        version.revision,
        input.byte,
        size.first,
        size.second,
        gamma.byte,
        features.byte,
        c.b25,
        c.b26,
        c.b27,
        c.b28,
        c.b29,
        c.b30,
        c.b31,
        c.b32,
        c.b33,
        c.b34,
        flags.b35,
        flags.b36,
        flags.b37,
    ];
    Leaf { fits, bytes }
}
