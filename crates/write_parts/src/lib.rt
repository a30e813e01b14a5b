// The bytes of the parts of a slot: a pair, a white point with its gamma, a text.
#![tactic(auto)]

ghost use Rattle.std.specs.Prelude.{◌≡◌, ◌≤◌};
ghost use Rattle.write_parts.specs.Pair.{ratio_code, same_timing, same_pair, WritesPair};
ghost use Rattle.write_parts.specs.Point.{WritesGamma, WritesPoint};
ghost use Rattle.write_parts.specs.Text.{text_byte, WritesText};

use standard_parts::Structure;
use standard_record::{Ratio, StandardTiming, WhitePoint};
use write_leaf::{Leaf, OneByte, TwoBytes};

// ---- pairs

fn ratio_code(x: Ratio) -> u8
    ensures { (result ≡ ratio_code x) × (result ≤ 3) }
{
    (write_leaf::digit(x.width == 4)
        + 2 * write_leaf::digit(x.width == 5)
        + 3 * write_leaf::digit(x.height == 9))
        % 4
}

// How many fields agree, in the place of a chain of tests.
fn same_timing(w: StandardTiming, v: StandardTiming) -> bool
    ensures { result ≡ same_timing w v }
{
    write_leaf::digit(w.width == v.width)
        + write_leaf::digit(w.ratio.width == v.ratio.width)
        + write_leaf::digit(w.ratio.height == v.ratio.height)
        + write_leaf::digit(w.rate == v.rate)
        == 4
}

fn same_pair(p: Option<StandardTiming>, v: StandardTiming) -> bool
    ensures { result ≡ same_pair p v }
{
    match p {
        None => false,
        Some(w) => same_timing(w, v),
    }
}

// The two bytes of a standard timing.
pub fn pair_bytes(structure: Structure, v: StandardTiming) -> TwoBytes
    ensures { WritesPair structure v result.fits (result.first, result.second) }
{
    let low = ((v.width / 8 + 225) % 256) as u8;
    let high = ratio_code(v.ratio) * 64 + ((v.rate % 64 + 4) % 64) as u8;
    let fits = same_pair(standard_parts::pair_of(structure, low, high), v);
    TwoBytes {
        fits,
        first: low,
        second: high,
    }
}

// ---- white points

pub fn gamma_byte(g: Option<u16>) -> OneByte
    ensures { WritesGamma g result.fits result.byte }
{
    match g {
        None => OneByte {
            fits: true,
            byte: 0xff,
        },
        Some(n) => OneByte {
            fits: write_leaf::digit(100 <= n) + write_leaf::digit(n <= 354) == 2,
            byte: ((n as u32 + 156) % 256) as u8,
        },
    }
}

// The five bytes of a white point.
pub fn point_bytes(p: WhitePoint) -> Leaf<5>
    ensures { WritesPoint p result.fits result.bytes }
{
    let gamma = p.gamma;
    let last = gamma_byte(gamma);
    let x = p.place.x;
    let y = p.place.y;
    let fits = write_leaf::digit(1 <= p.index)
        + write_leaf::digit(x <= 1023)
        + write_leaf::digit(y <= 1023)
        + write_leaf::digit(last.fits)
        == 4;
    let bytes = [
        p.index,
        (x % 4 * 4 + y % 4) as u8,
        (x / 4 % 256) as u8,
        (y / 4 % 256) as u8,
        last.byte,
    ];
    Leaf { fits, bytes }
}

// ---- texts

fn text_byte(t: &[u8], k: usize) -> u8
    ensures { result ≡ text_byte t.now k }
{
    if k < t.len() {
        return t[k];
    }
    if k == t.len() { 0x0a } else { 0x20 }
}

// The 13 bytes of a text.
pub fn text_bytes(t: &[u8]) -> Leaf<13>
    ensures { WritesText t.now result.fits result.bytes }
{
    let fits = write_leaf::digit(t.len() <= 13)
        + write_leaf::digit(standard_parts::text_length(t) == t.len())
        == 2;
    let bytes = [
        text_byte(t, 0),
        text_byte(t, 1),
        text_byte(t, 2),
        text_byte(t, 3),
        text_byte(t, 4),
        text_byte(t, 5),
        text_byte(t, 6),
        text_byte(t, 7),
        text_byte(t, 8),
        text_byte(t, 9),
        text_byte(t, 10),
        text_byte(t, 11),
        text_byte(t, 12),
    ];
    Leaf { fits, bytes }
}
