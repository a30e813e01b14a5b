// The standard reading's record, by E-EDID structures 1.3 and 1.4, in whole numbers: every type of it, and one filler for each list.
// A field that a definition names has no `_` in its name.
#![tactic(auto)]

ghost use Rattle.std.specs.Prelude.{◌≡◌};
ghost use Rattle.standard_record.specs.Filler.{blank};

use fixed::Fixed;
use shared_record::{EstablishedTimings, SupportedSync, Version};
use steps::{Refusal, Span};
use timing::{Across, Border, Down, Lines, Pixels, Size, StereoType, SyncPolarity};

// Three capital letters; 0 stands for a code that is no letter.
#[derive(Clone, Copy)]
pub struct Maker(pub u8, pub u8, pub u8);

// The week of manufacture; or none, the year being that of the model, from revision 4 on.
#[derive(Clone, Copy)]
pub enum Week {
    Made(u8),
    ModelYear,
}

#[derive(Clone, Copy)]
pub struct Product {
    pub maker: Maker,
    pub code: u16,
    pub serial: u32,
    pub week: Week,
    pub year: u16,
}

// Of a colour, in bits.
#[derive(Clone, Copy)]
pub enum Depth {
    Undefined,
    Bits(u8),
    Reserved,
}

// `level` is the code of the signal levels: 0.700/0.300, 0.714/0.286, 1.000/0.400, 0.700/0.000 V. A digital input is told by its depth and the code of its
// interface from revision 4 on.
#[derive(Clone, Copy)]
pub enum VideoInput {
    Analog {
        level: u8,
        setup: bool,
        sync: SupportedSync,
    },
    Digital {
        dfp: bool,
    },
    Interface {
        depth: Depth,
        code: u8,
    },
}

// In millimetres; or a ratio alone, from revision 4 on.
#[derive(Clone, Copy)]
pub enum ImageSize {
    None,
    Some(Size),
    Ratio(Ratio),
}

#[derive(Clone, Copy)]
pub enum DisplayType {
    Monochrome,
    RGBColor,
    OtherColor,
    Undefined,
}

// A type; or, where the input tells its interface, the colour encodings beside RGB 4:4:4.
#[derive(Clone, Copy)]
pub enum Kind {
    Typed(DisplayType),
    Encodings { ycrcb444: bool, ycrcb422: bool },
}

#[derive(Clone, Copy)]
pub struct Features {
    pub standby: bool,
    pub suspend: bool,
    pub lowpower: bool,
    pub kind: Kind,
    pub srgb: bool,
    pub preferred: bool,
    pub gtf: bool,
}

#[derive(Clone, Copy)]
pub struct Display {
    pub input: VideoInput,
    pub size: ImageSize,
    // In hundredths.
    pub gamma: Option<u16>,
    pub features: Features,
}

// In 1/1024ths.
#[derive(Clone, Copy)]
pub struct Chromaticity {
    pub x: u16,
    pub y: u16,
}

// The four that the block always holds.
#[derive(Clone, Copy)]
pub struct Chromaticities {
    pub red: Chromaticity,
    pub green: Chromaticity,
    pub blue: Chromaticity,
    pub white: Chromaticity,
}

#[derive(Clone, Copy)]
pub struct WhitePoint {
    pub index: u8,
    pub place: Chromaticity,
    // In hundredths.
    pub gamma: Option<u16>,
}

pub type WhitePoints = Fixed<HeldPoint, 6>;

#[derive(Clone, Copy)]
pub struct Color {
    pub basic: Chromaticities,
    pub points: WhitePoints,
}

// Width to height.
#[derive(Clone, Copy)]
pub struct Ratio {
    pub width: u16,
    pub height: u16,
}

#[derive(Clone, Copy)]
pub struct StandardTiming {
    pub width: u16,
    pub ratio: Ratio,
    pub rate: u16,
}

pub type StandardTimings = Fixed<HeldPair, 26>;

// Which lines carry an analog composite sync.
#[derive(Clone, Copy)]
pub enum SyncLine {
    Green,
    RGB,
}

#[derive(Clone, Copy)]
pub enum Sync {
    AnalogComposite {
        serrated: bool,
        line: SyncLine,
    },
    BipolarAnalogComposite {
        serrated: bool,
        line: SyncLine,
    },
    DigitalComposite {
        serrated: bool,
        polarity: SyncPolarity,
    },
    DigitalSeparate {
        horizontal: SyncPolarity,
        vertical: SyncPolarity,
    },
}

// The clock in Hz, the size in millimetres.
#[derive(Clone, Copy)]
pub struct DetailedTiming {
    pub clock: u32,
    pub across: Across,
    pub down: Down,
    pub size: Size,
    pub border: Border,
    pub interlaced: bool,
    pub stereo: StereoType,
    pub sync: Sync,
}

pub type DetailedTimings = Fixed<HeldTiming, 4>;

#[derive(Clone, Copy)]
pub struct Timings {
    pub established: EstablishedTimings,
    pub standard: StandardTimings,
    pub detailed: DetailedTimings,
}

// In Hz.
#[derive(Clone, Copy)]
pub struct Limits {
    pub vmin: u16,
    pub vmax: u16,
    pub hmin: u32,
    pub hmax: u32,
    pub clock: u32,
}

// `start` in Hz; c, m, k and j as stored, so c and j are twice their value.
#[derive(Clone, Copy)]
pub enum SecondaryTiming {
    None,
    GTF {
        start: u32,
        c: u8,
        m: u16,
        k: u8,
        j: u8,
    },
    Other {
        kind: u8,
        data: Span,
    },
}

#[derive(Clone, Copy)]
pub enum Descriptor {
    Serial(Span),
    Text(Span),
    Range {
        limits: Limits,
        secondary: SecondaryTiming,
    },
    Name(Span),
    Undefined {
        tag: u8,
        data: Span,
    },
    MakerDefined {
        tag: u8,
        data: Span,
    },
}

pub type Descriptors = Fixed<Held, 3>;

// ---- the entries of the four lists: each beside the number of the slot that holds it, 1 to 4; 0 for the eight pairs at offset 38

#[derive(Clone, Copy)]
pub struct HeldPoint {
    pub point: WhitePoint,
    pub slot: u16,
}

// Five numbers of 16 bits, 10 bytes with no padding: docs/BENCHMARK.md has what other layouts cost.
#[derive(Clone, Copy)]
pub struct HeldPair {
    pub pair: StandardTiming,
    pub slot: u16,
}

#[derive(Clone, Copy)]
pub struct HeldTiming {
    pub timing: DetailedTiming,
    pub slot: u16,
}

#[derive(Clone, Copy)]
pub struct Held {
    pub descriptor: Descriptor,
    pub slot: u16,
}

// ---- the record

#[derive(Clone, Copy)]
pub struct StandardRecord {
    pub product: Product,
    pub version: Version,
    pub display: Display,
    pub color: Color,
    pub timings: Timings,
    pub descriptors: Descriptors,
    pub extensions: u8,
}

// Accepted, or refused.
pub type Verdict = Result<(), Refusal>;

// The record, and beside it how its reading ended; the filler where it was refused, as the theorem `filler_beside_a_refusal` says: so it is no Result of a record.
#[derive(Clone, Copy)]
pub struct StandardReading {
    pub edid: StandardRecord,
    pub end: Verdict,
}

// ---- the fillers: what stands past a list's length, and the record beside a refusal

const BLANK_CHROMATICITY: Chromaticity = Chromaticity { x: 0, y: 0 };

pub const BLANK_WHITE: HeldPoint = HeldPoint {
    point: WhitePoint {
        index: 0,
        place: BLANK_CHROMATICITY,
        gamma: None,
    },
    slot: 0,
};

pub const BLANK_STANDARD: HeldPair = HeldPair {
    pair: StandardTiming {
        width: 0,
        ratio: Ratio {
            width: 0,
            height: 0,
        },
        rate: 0,
    },
    slot: 0,
};

pub const BLANK_TIMING: DetailedTiming = DetailedTiming {
    clock: 0,
    across: Across {
        active: Pixels(0),
        front: Pixels(0),
        sync: Pixels(0),
        back: Pixels(0),
    },
    down: Down {
        active: Lines(0),
        front: Lines(0),
        sync: Lines(0),
        back: Lines(0),
    },
    size: Size {
        width: 0,
        height: 0,
    },
    border: Border {
        across: Pixels(0),
        down: Lines(0),
    },
    interlaced: false,
    stereo: StereoType::None,
    sync: Sync::AnalogComposite {
        serrated: false,
        line: SyncLine::Green,
    },
};

pub const BLANK_DETAILED: HeldTiming = HeldTiming {
    timing: BLANK_TIMING,
    slot: 0,
};

pub const BLANK_HELD: Held = Held {
    descriptor: Descriptor::Name(Span { start: 0, len: 0 }),
    slot: 0,
};

const BLANK: StandardRecord = StandardRecord {
    product: Product {
        maker: Maker(0, 0, 0),
        code: 0,
        serial: 0,
        week: Week::Made(0),
        year: 0,
    },
    version: Version {
        version: 0,
        revision: 0,
    },
    display: Display {
        input: VideoInput::Digital { dfp: false },
        size: ImageSize::None,
        gamma: None,
        features: Features {
            standby: false,
            suspend: false,
            lowpower: false,
            kind: Kind::Typed(DisplayType::Monochrome),
            srgb: false,
            preferred: false,
            gtf: false,
        },
    },
    color: Color {
        basic: Chromaticities {
            red: BLANK_CHROMATICITY,
            green: BLANK_CHROMATICITY,
            blue: BLANK_CHROMATICITY,
            white: BLANK_CHROMATICITY,
        },
        points: WhitePoints {
            items: [BLANK_WHITE; 6],
            len: 0,
        },
    },
    timings: Timings {
        established: EstablishedTimings {
            items: [0u8; 17],
            len: 0,
        },
        standard: StandardTimings {
            items: [BLANK_STANDARD; 26],
            len: 0,
        },
        detailed: DetailedTimings {
            items: [BLANK_DETAILED; 4],
            len: 0,
        },
    },
    descriptors: Descriptors {
        items: [BLANK_HELD; 3],
        len: 0,
    },
    extensions: 0,
};

// The record beside a refusal.
pub fn blank_record() -> StandardRecord
    ensures { result ≡ blank }
{
    BLANK
}
