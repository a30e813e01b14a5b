// The crate reading's record, with the source's names: every type of it, one filler for each list, and its f32 numbers.
// A field that a definition names has no `_` in its name.
#![tactic(auto)]

ghost use Rattle.std.specs.Prelude.{ℕ, ◌≡◌, ◌%◌};
ghost use Rattle.crate_record.specs.Filler.{blank};
ghost use Rattle.crate_record.specs.Single.{whole, gamma_of, chroma_of, coordinate, tenths_of, half_of, ratio_of, level_of};

use fixed::Fixed;
use shared_record::{EstablishedTimings, SupportedSync, Version};
use steps::{Refusal, Span};
use timing::{Across, Border, Down, Lines, Pixels, StereoType, SyncPolarity};

// Three 5-bit numbers.
#[derive(Clone, Copy)]
pub struct ManufacturerID(pub u8, pub u8, pub u8);

#[derive(Clone, Copy)]
pub struct ManufactureDate {
    pub week: u8,
    pub year: u16,
}

#[derive(Clone, Copy)]
pub struct ProductInformation {
    pub maker: ManufacturerID,
    pub code: u16,
    pub serial: u32,
    pub date: ManufactureDate,
}

#[derive(Clone, Copy)]
pub struct SignalLevel {
    pub high: f32,
    pub low: f32,
}

#[derive(Clone, Copy)]
pub enum VideoInput {
    Analog {
        level: SignalLevel,
        setup: bool,
        sync: SupportedSync,
    },
    Digital {
        dfp: bool,
    },
}

// In centimetres.
#[derive(Clone, Copy)]
pub struct ImageSize {
    pub width: f32,
    pub height: f32,
}

#[derive(Clone, Copy)]
pub enum DisplayType {
    Monochrome,
    RGBColor,
    OtherColor,
    Undefined,
}

#[derive(Clone, Copy)]
pub struct DPMSFeatures {
    pub standby: bool,
    pub suspend: bool,
    pub lowpower: bool,
    pub kind: DisplayType,
    pub srgb: bool,
    pub preferred: bool,
    pub gtf: bool,
}

#[derive(Clone, Copy)]
pub struct DisplayParameters {
    pub input: VideoInput,
    pub size: Option<ImageSize>,
    pub gamma: Option<f32>,
    pub dpms: DPMSFeatures,
}

#[derive(Clone, Copy)]
pub struct Chromaticity {
    pub x: f32,
    pub y: f32,
}

// The four that the block always holds.
#[derive(Clone, Copy)]
pub struct Chromaticities {
    pub red: Chromaticity,
    pub green: Chromaticity,
    pub blue: Chromaticity,
    pub white: Chromaticity,
}

#[derive(Clone, Copy)]
pub struct WhitePoint {
    pub index: u8,
    pub x: f32,
    pub y: f32,
    pub gamma: f32,
}

pub type WhitePoints = Fixed<WhitePoint, 6>;

#[derive(Drop)]
pub struct ColorCharacteristics {
    pub basic: Chromaticities,
    pub points: WhitePoints,
}

// 8 bytes with no padding, so `rate` is no u8: a list of them is cleared and copied in wide moves.
#[derive(Clone, Copy)]
pub struct StandardTiming {
    pub ratio: f32,
    pub width: u16,
    pub rate: u16,
}

pub type StandardTimings = Fixed<StandardTiming, 26>;

#[derive(Clone, Copy)]
pub enum SyncLine {
    RGB,
    Green,
    Digital(SyncPolarity),
}

#[derive(Clone, Copy)]
pub enum SyncType {
    Composite {
        serrated: bool,
        line: SyncLine,
    },
    Separate {
        horizontal: SyncPolarity,
        vertical: SyncPolarity,
    },
}

#[derive(Clone, Copy)]
pub struct DetailedTiming {
    pub clock: u32,
    pub across: Across,
    pub down: Down,
    pub size: ImageSize,
    pub border: Border,
    pub interlaced: bool,
    pub stereo: StereoType,
    pub sync: SyncType,
}

pub type DetailedTimings = Fixed<DetailedTiming, 4>;

#[derive(Drop)]
pub struct Timings {
    pub established: EstablishedTimings,
    pub standard: StandardTimings,
    pub detailed: DetailedTimings,
}

#[derive(Clone, Copy)]
pub enum SecondaryTiming {
    None,
    GTF {
        start: u32,
        c: f32,
        m: f32,
        k: f32,
        j: f32,
    },
    Other {
        kind: u8,
        data: Span,
    },
}

// In Hz.
#[derive(Clone, Copy)]
pub struct Limits {
    pub vmin: u8,
    pub vmax: u8,
    pub hmin: u32,
    pub hmax: u32,
    pub clock: u32,
}

#[derive(Clone, Copy)]
pub enum MonitorDescriptor {
    SerialNumber(Span),
    OtherString(Span),
    RangeLimits {
        limits: Limits,
        secondary: SecondaryTiming,
    },
    MonitorName(Span),
    Undefined {
        tag: u8,
        data: Span,
    },
    ManufacturerDefined {
        tag: u8,
        data: Span,
    },
}

pub type MonitorDescriptors = Fixed<MonitorDescriptor, 3>;

#[derive(Drop)]
pub struct EDID {
    pub product: ProductInformation,
    pub version: Version,
    pub display: DisplayParameters,
    pub color: ColorCharacteristics,
    pub timings: Timings,
    pub descriptors: MonitorDescriptors,
    pub extensions: u8,
}

// The record, and beside it the place behind its bytes or the refusal. It is no Result of a record: beside a refusal `crate_reading::read`
// promises the filler (`Beside blank`).
#[derive(Drop)]
pub struct Reading {
    pub edid: EDID,
    pub end: Result<usize, Refusal>,
}

// ---- the fillers: what stands past a list's length, and the record beside a refusal

pub const BLANK_WHITE: WhitePoint = WhitePoint {
    index: 0,
    x: 0.0,
    y: 0.0,
    gamma: 0.0,
};

pub const BLANK_STANDARD: StandardTiming = StandardTiming {
    ratio: 0.0,
    width: 0,
    rate: 0,
};

pub const BLANK_DETAILED: DetailedTiming = DetailedTiming {
    clock: 0,
    across: Across {
        active: Pixels(0),
        front: Pixels(0),
        sync: Pixels(0),
        back: Pixels(0),
    },
    down: Down {
        active: Lines(0),
        front: Lines(0),
        sync: Lines(0),
        back: Lines(0),
    },
    size: ImageSize {
        width: 0.0,
        height: 0.0,
    },
    border: Border {
        across: Pixels(0),
        down: Lines(0),
    },
    interlaced: false,
    stereo: StereoType::None,
    sync: SyncType::Composite {
        serrated: false,
        line: SyncLine::Green,
    },
};

pub const BLANK_DESCRIPTOR: MonitorDescriptor = MonitorDescriptor::MonitorName(Span {
    start: 0,
    len: 0,
});

const BLANK_CHROMATICITY: Chromaticity = Chromaticity { x: 0.0, y: 0.0 };

const BLANK: EDID = EDID {
    product: ProductInformation {
        maker: ManufacturerID(0, 0, 0),
        code: 0,
        serial: 0,
        date: ManufactureDate { week: 0, year: 0 },
    },
    version: Version {
        version: 0,
        revision: 0,
    },
    display: DisplayParameters {
        input: VideoInput::Digital { dfp: false },
        size: None,
        gamma: None,
        dpms: DPMSFeatures {
            standby: false,
            suspend: false,
            lowpower: false,
            kind: DisplayType::Monochrome,
            srgb: false,
            preferred: false,
            gtf: false,
        },
    },
    color: ColorCharacteristics {
        basic: Chromaticities {
            red: BLANK_CHROMATICITY,
            green: BLANK_CHROMATICITY,
            blue: BLANK_CHROMATICITY,
            white: BLANK_CHROMATICITY,
        },
        points: WhitePoints {
            items: [BLANK_WHITE; 6],
            len: 0,
        },
    },
    timings: Timings {
        established: EstablishedTimings {
            items: [0u8; 17],
            len: 0,
        },
        standard: StandardTimings {
            items: [BLANK_STANDARD; 26],
            len: 0,
        },
        detailed: DetailedTimings {
            items: [BLANK_DETAILED; 4],
            len: 0,
        },
    },
    descriptors: MonitorDescriptors {
        items: [BLANK_DESCRIPTOR; 3],
        len: 0,
    },
    extensions: 0,
};

// The record beside a refusal.
pub fn blank_edid() -> EDID
    ensures { result ≡ blank }
{
    BLANK
}

// ---- numbers made of bytes

// A byte, or 16 bits: f32 holds each exactly.
pub trait Whole: Sized {
    // Which number a value is.
    ghost value: { Self → ℕ };

    fn whole(self) -> f32
        ensures { result ≡ whole (value self) };
}

impl Whole for u8 {
    ghost value = { λ n. n };

    fn whole(self) -> f32 {
        self as f32
    }
}

impl Whole for u16 {
    ghost value = { λ n. n };

    fn whole(self) -> f32 {
        f32::from(self)
    }
}

// The number as it is.
pub fn whole_of<N: Whole>(n: N) -> f32
    ensures { result ≡ whole (N.value n) }
{
    n.whole()
}

pub fn gamma_of(v: u8) -> f32
    ensures { result ≡ gamma_of v }
{
    (v as f32 + 100.0) / 100.0
}

fn chroma_of(n: u16) -> f32
    ensures { result ≡ chroma_of n }
{
    n as f32 / 1024.0
}

// Ten bits in 1/1024ths: a high byte above the two digits of `low` from digit `shift` up.
pub fn coordinate_of(high: u8, low: u8, shift: u8) -> f32
    ensures { result ≡ coordinate high low (shift % 8) }
{
    chroma_of(bits::stack(high, bits::digits(low, shift, 2), 2))
}

pub fn tenths_of(n: u16) -> f32
    ensures { result ≡ tenths_of n }
{
    n as f32 / 10.0
}

pub fn half_of(v: u8) -> f32
    ensures { result ≡ half_of v }
{
    v as f32 / 2.0
}

pub fn ratio_of(code: u8) -> f32
    ensures { result ≡ ratio_of code }
{
    match code {
        0 => 16.0 / 10.0,
        1 => 4.0 / 3.0,
        2 => 5.0 / 4.0,
        _ => 16.0 / 9.0,
    }
}

pub fn level_of(code: u8) -> SignalLevel
    ensures { result ≡ level_of code }
{
    match code {
        0 => SignalLevel {
            high: 0.700,
            low: 0.300,
        },
        1 => SignalLevel {
            high: 0.714,
            low: 0.286,
        },
        2 => SignalLevel {
            high: 1.000,
            low: 0.400,
        },
        _ => SignalLevel {
            high: 0.700,
            low: 0.000,
        },
    }
}
