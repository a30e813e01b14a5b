// The 18 bytes of a slot that holds no timing: pairs, white points, or a descriptor, the bytes of whose span are lent. White points are read alike by
// every structure σ.
#![tactic(auto)]

ghost use Rattle.std.specs.Prelude.{◌≡◌, ◌||◌, [], ◌∷◌, ◌++◌, eqb, length, take, ◌-◌, ◌≤◌};
ghost use Rattle.fixed.specs.Fixed.{pad};
ghost use Rattle.standard_parts.specs.Structure.{since4};
ghost use Rattle.standard_parts.specs.declared.Structure.{Structure};
ghost use Rattle.write_slots.specs.Slot.{headed, tagged, offset_code, offsets_byte, limits_bytes, secondary_bytes};
ghost use Rattle.write_slots.specs.Writes.{WritesPoints, WritesDescriptor};
ghost use Rattle.write_slots.specs.Tests.{both_points, points_rest, within, exact, WritesSpan, run_fits, secondary_fits, range_fits, MakesEnds, MakesLimits};
ghost use Rattle.write_slots.specs.Words.{bytes_of, secondary};
ghost use Rattle.write_leaf.specs.Bytes.{low};

use standard_parts::Structure;
use standard_record::{Descriptor, Limits, SecondaryTiming};
use standard_slots::Points;
use steps::Span;
use write_leaf::Leaf;
use write_pairs::PairsBytes;

// The two ends of a range, and the code of what is added to them. No Option: `made` of `Writes` tells of the bytes where they do not fit too.
#[derive(Clone, Copy)]
struct EndsBytes {
    fits: bool,
    code: u8,
    min: u8,
    max: u8,
}

// The limits, and the byte of their offsets. No Option, as of the ends.
#[derive(Drop)]
struct LimitsBytes {
    fits: bool,
    offsets: u8,
    bytes: [u8; 5],
}

// A slot without a clock: its tag, the byte behind it, and the 13 behind that.
fn headed(tag: u8, b4: u8, rest: Leaf<13>) -> Leaf<18>
    ensures { (result.fits ≡ rest.fits) × (result.bytes ≡ headed tag b4 rest.bytes) }
{
    let b = rest.bytes;
    let bytes = [
        0, 0, 0, tag, b4, b[0], b[1], b[2], b[3], b[4], b[5], b[6], b[7], b[8], b[9], b[10], b[11],
        b[12],
    ];
    Leaf {
        fits: rest.fits,
        bytes,
    }
}

fn tagged(tag: u8, rest: Leaf<13>) -> Leaf<18>
    ensures { (result.fits ≡ rest.fits) × (result.bytes ≡ tagged tag rest.bytes) }
{
    headed(tag, 0, rest)
}

// ---- white points

fn points_rest(first: Leaf<5>, second: Leaf<5>) -> Leaf<13>
    ensures { (result.fits ≡ both_points first.fits second.fits) × (result.bytes ≡ points_rest first.bytes second.bytes) }
{
    let p = first.bytes;
    let q = second.bytes;
    let bytes = [
        p[0], p[1], p[2], p[3], p[4], q[0], q[1], q[2], q[3], q[4], 0x0a, 0x20, 0x20,
    ];
    Leaf {
        fits: write_leaf::digit(first.fits) + write_leaf::digit(second.fits) == 2,
        bytes,
    }
}

pub fn points_bytes(ps: Points) -> Leaf<18>
    ensures { (σ : Structure) → WritesPoints σ ps result.fits result.bytes }
{
    match ps {
        Points::None => tagged(
            0x10,
            Leaf {
                fits: true,
                bytes: [0u8; 13],
            },
        ),
        Points::One(p) => tagged(
            0xfb,
            points_rest(
                write_parts::point_bytes(p),
                Leaf {
                    fits: true,
                    bytes: [0u8; 5],
                },
            ),
        ),
        Points::Two(p, q) => tagged(
            0xfb,
            points_rest(write_parts::point_bytes(p), write_parts::point_bytes(q)),
        ),
    }
}

// ---- pairs

// The first six of the pairs, then 0x0a.
pub fn six_bytes(pairs: PairsBytes) -> Leaf<18>
    ensures { (result.fits ≡ pairs.fits) × (result.bytes ≡ tagged 0xfa (take 12 pairs.bytes ++ 0x0a ∷ [])) }
{
    let b = pairs.bytes;
    let bytes = [
        b[0], b[1], b[2], b[3], b[4], b[5], b[6], b[7], b[8], b[9], b[10], b[11], 0x0a,
    ];
    tagged(
        0xfa,
        Leaf {
            fits: pairs.fits,
            bytes,
        },
    )
}

// ---- the spans of a descriptor

// Whether a span ends by the place n, without a sum that could wrap.
fn within(s: Span, n: usize) -> bool
    ensures { result ≡ within s n }
{
    s.start <= n && s.len <= n - s.start
}

// Whether it also is of this size.
fn exact(size: usize, s: Span, n: usize) -> bool
    ensures { result ≡ exact size s n }
{
    write_leaf::digit(s.len == size) + write_leaf::digit(within(s, n)) == 2
}

fn text_rest(s: Span, lent: &[u8]) -> Leaf<13>
    ensures { WritesSpan lent.now s result.fits result.bytes }
{
    let text = write_parts::text_bytes(bits::part(lent, s.start, s.len));
    let bytes = text.bytes;
    Leaf {
        fits: write_leaf::digit(within(s, lent.len())) + write_leaf::digit(text.fits) == 2,
        bytes,
    }
}

// Past the end of the run its bytes are 0.
fn run_bytes(run: &[u8]) -> [u8; 13]
    ensures { result ≡ pad 13 0 run.now }
{
    [
        bits::byte_at(run, 0),
        bits::byte_at(run, 1),
        bits::byte_at(run, 2),
        bits::byte_at(run, 3),
        bits::byte_at(run, 4),
        bits::byte_at(run, 5),
        bits::byte_at(run, 6),
        bits::byte_at(run, 7),
        bits::byte_at(run, 8),
        bits::byte_at(run, 9),
        bits::byte_at(run, 10),
        bits::byte_at(run, 11),
        bits::byte_at(run, 12),
    ]
}

// `known`: the tag is one of those that have such a run.
fn run_rest(known: bool, s: Span, lent: &[u8]) -> Leaf<13>
    ensures { (result.fits ≡ run_fits known s (length lent.now)) × (result.bytes ≡ pad 13 0 (bytes_of lent.now s)) }
{
    let fits = write_leaf::digit(known) + write_leaf::digit(exact(13, s, lent.len())) == 2;
    let bytes = run_bytes(bits::part(lent, s.start, s.len));
    Leaf { fits, bytes }
}

// ---- range limits

fn secondary_bytes(s: SecondaryTiming, lent: &[u8]) -> Leaf<8>
    ensures { (result.fits ≡ secondary_fits s (length lent.now)) × (result.bytes ≡ secondary_bytes (secondary lent.now s)) }
{
    match s {
        SecondaryTiming::None => Leaf {
            fits: true,
            bytes: [0, 0x0a, 0x20, 0x20, 0x20, 0x20, 0x20, 0x20],
        },
        SecondaryTiming::GTF { start, c, m, k, j } => Leaf {
            fits: start / 2000 % 256 * 2000 == start,
            bytes: [
                2,
                0,
                (start / 2000 % 256) as u8,
                c,
                (m % 256) as u8,
                (m / 256 % 256) as u8,
                k,
                j,
            ],
        },
        SecondaryTiming::Other { kind, data } => {
            let b = run_bytes(bits::part(lent, data.start, data.len));
            Leaf {
                fits: write_leaf::digit(kind != 0)
                    + write_leaf::digit(kind != 2)
                    + write_leaf::digit(exact(7, data, lent.len()))
                    == 3,
                bytes: [kind, b[0], b[1], b[2], b[3], b[4], b[5], b[6]],
            }
        }
    }
}

// The lowest that fits.
fn offset_code(min: u32, max: u32) -> u8
    ensures { (result ≡ offset_code min max) × (result ≤ 3) }
{
    if 256 <= min {
        return 3;
    }
    if 256 <= max {
        return 2;
    }
    0
}

fn less(n: u32, offset: u16) -> u8
    ensures { result ≡ low (n - offset) }
{
    (n.saturating_sub(offset as u32) % 256) as u8
}

// An offset is read from revision 4 on.
fn is_read(structure: Structure, code: u8) -> bool
    ensures { result ≡ (since4 structure || eqb code 0) }
{
    standard_parts::since_4(structure) || code == 0
}

// The two ends of a range, in units.
fn ends_bytes(structure: Structure, min: u32, max: u32) -> EndsBytes
    ensures { MakesEnds structure min max result }
{
    let code = offset_code(min, max);
    let below = standard_parts::to_min(code);
    let above = standard_parts::to_max(code);
    let first = less(min, below);
    let second = less(max, above);
    EndsBytes {
        fits: write_leaf::digit(first as u32 + below as u32 == min)
            + write_leaf::digit(second as u32 + above as u32 == max)
            + write_leaf::digit(is_read(structure, code))
            == 3,
        code,
        min: first,
        max: second,
    }
}

fn limits_bytes(structure: Structure, l: Limits) -> LimitsBytes
    ensures { MakesLimits structure l result }
{
    let v = ends_bytes(structure, l.vmin as u32, l.vmax as u32);
    let h = ends_bytes(structure, l.hmin / 1000, l.hmax / 1000);
    let clock = l.clock / 10000000 % 256;
    LimitsBytes {
        fits: write_leaf::digit(v.fits)
            + write_leaf::digit(h.fits)
            + write_leaf::digit(l.hmin % 1000 + l.hmax % 1000 == 0)
            + write_leaf::digit(clock * 10000000 == l.clock)
            == 4,
        offsets: v.code + 4 * h.code,
        bytes: [v.min, v.max, h.min, h.max, clock as u8],
    }
}

fn range_slot(structure: Structure, l: Limits, s: SecondaryTiming, lent: &[u8]) -> Leaf<18>
    ensures { (result.fits ≡ range_fits structure l s (length lent.now)) × (result.bytes ≡ headed 0xfd (offsets_byte l) (limits_bytes l ++ secondary_bytes (secondary lent.now s))) }
{
    let limits = limits_bytes(structure, l);
    let second = secondary_bytes(s, lent);
    let fits = write_leaf::digit(limits.fits) + write_leaf::digit(second.fits) == 2;
    let a = limits.bytes;
    let b = second.bytes;
    let bytes = [
        a[0], a[1], a[2], a[3], a[4], b[0], b[1], b[2], b[3], b[4], b[5], b[6], b[7],
    ];
    headed(0xfd, limits.offsets, Leaf { fits, bytes })
}

// ---- descriptors

pub fn descriptor_bytes(structure: Structure, d: Descriptor, lent: &[u8]) -> Leaf<18>
    ensures { WritesDescriptor structure lent.now d result.fits result.bytes }
{
    match d {
        Descriptor::Serial(s) => tagged(0xff, text_rest(s, lent)),
        Descriptor::Text(s) => tagged(0xfe, text_rest(s, lent)),
        Descriptor::Range { limits, secondary } => range_slot(structure, limits, secondary, lent),
        Descriptor::Name(s) => tagged(0xfc, text_rest(s, lent)),
        Descriptor::Undefined { tag, data } => {
            let known = write_leaf::digit(0x11 <= tag) + write_leaf::digit(tag <= 0xf9) == 2;
            tagged(tag, run_rest(known, data, lent))
        }
        Descriptor::MakerDefined { tag, data } => tagged(tag, run_rest(tag < 0x10, data, lent)),
    }
}
