// What both readings take from the bytes of a detailed timing: axes and porches, size, border, stereo, polarity.
// Bytes are named by their place in the 18 of a timing: b2 is the third.
#![tactic(auto)]

ghost use Rattle.std.specs.Prelude.{ℕ, ◌≡◌, option_map};
ghost use Rattle.timing.specs.Axis.{pixels, pixels_in, lines, lines_in, back_porch, across_of, down_of};
ghost use Rattle.timing.specs.Rest.{clock_of, size_of, border_of, polarity_of, stereo_by, stereo_of};

// A sum of pixels and lines does not compile: the two are different types, and what is computed of both is generic over `Length`.
#[derive(Clone, Copy, PartialEq, Eq, Debug)]
pub struct Pixels(pub u16);

#[derive(Clone, Copy, PartialEq, Eq, Debug)]
pub struct Lines(pub u16);

// One axis: its blanking is front porch, sync and back porch, in that order.
#[derive(Clone, Copy, PartialEq, Eq, Debug)]
pub struct Across {
    pub active: Pixels,
    pub front: Pixels,
    pub sync: Pixels,
    pub back: Pixels,
}

#[derive(Clone, Copy, PartialEq, Eq, Debug)]
pub struct Down {
    pub active: Lines,
    pub front: Lines,
    pub sync: Lines,
    pub back: Lines,
}

// In millimetres.
#[derive(Clone, Copy, PartialEq, Eq, Debug)]
pub struct Size {
    pub width: u16,
    pub height: u16,
}

#[derive(Clone, Copy, PartialEq, Eq, Debug)]
pub struct Border {
    pub across: Pixels,
    pub down: Lines,
}

#[derive(Clone, Copy, PartialEq, Eq, Debug)]
pub enum SyncPolarity {
    Positive,
    Negative,
}

#[derive(Clone, Copy, PartialEq, Eq, Debug)]
pub enum StereoType {
    None,
    SequentialRightSync,
    SequentialLeftSync,
    InterleavedLinesRightEven,
    InterleavedLinesLeftEven,
    Interleaved4Way,
    SideBySide,
}

// A length along one axis, in that axis's own unit.
trait Length: Copy {
    ghost in_unit: { ℕ → Self };

    ghost in_number: { Self → ℕ };

    fn of(n: u16) -> Self
        ensures { result ≡ in_unit n };

    fn number(self) -> u16
        ensures { result ≡ in_number self };
}

impl Length for Pixels {
    ghost in_unit = { pixels };

    ghost in_number = { pixels_in };

    fn of(n: u16) -> Pixels {
        Pixels(n)
    }

    fn number(self) -> u16 {
        self.0
    }
}

impl Length for Lines {
    ghost in_unit = { lines };

    ghost in_number = { lines_in };

    fn of(n: u16) -> Lines {
        Lines(n)
    }

    fn number(self) -> u16 {
        self.0
    }
}

// One rule for both axes: what sync and front porch leave of the blanking. None: they exceed it.
#[tactic(auto, unfolding(crate::specs::Axis::back_porch))]
fn back_porch<L: Length>(blanking: L, front: L, sync: L) -> Option<L>
    ensures { result ≡ option_map L.in_unit (back_porch (L.in_number blanking) (L.in_number front) (L.in_number sync)) }
{
    let rest = blanking.number().checked_sub(sync.number())?;
    let left = rest.checked_sub(front.number())?;
    Some(L::of(left))
}

// None: sync and front porch exceed the blanking.
#[inline(always)]
#[tactic(auto, unfolding(crate::specs::Axis::across_of))]
pub fn across_of(b2: u8, b3: u8, b4: u8, b8: u8, b9: u8, b11: u8) -> Option<Across>
    ensures { result ≡ across_of b2 b3 b4 b8 b9 b11 }
{
    let active = Pixels(bits::word(b2, bits::digits(b4, 4, 4)));
    let blanking = Pixels(bits::word(b3, bits::digits(b4, 0, 4)));
    let front = Pixels(bits::word(b8, bits::digits(b11, 6, 2)));
    let sync = Pixels(bits::word(b9, bits::digits(b11, 4, 2)));
    let back = back_porch(blanking, front, sync)?;
    Some(Across {
        active,
        front,
        sync,
        back,
    })
}

// The same of the lines.
#[inline(always)]
#[tactic(auto, using(bits::specs::Laws::digits_under), unfolding(crate::specs::Axis::down_of))]
pub fn down_of(b5: u8, b6: u8, b7: u8, b10: u8, b11: u8) -> Option<Down>
    ensures { result ≡ down_of b5 b6 b7 b10 b11 }
{
    let active = Lines(bits::word(b5, bits::digits(b7, 4, 4)));
    let blanking = Lines(bits::word(b6, bits::digits(b7, 0, 4)));
    let front = Lines(bits::stack(bits::digits(b11, 2, 2), bits::digits(b10, 4, 4), 4));
    let sync = Lines(bits::stack(bits::digits(b11, 0, 2), bits::digits(b10, 0, 4), 4));
    let back = back_porch(blanking, front, sync)?;
    Some(Down {
        active,
        front,
        sync,
        back,
    })
}

// In Hz, from the stored word of 10 kHz.
pub fn clock_of(stored: u16) -> u32
    ensures { result ≡ clock_of stored }
{
    stored as u32 * 10000
}

pub fn size_of(b12: u8, b13: u8, b14: u8) -> Size
    ensures { result ≡ size_of b12 b13 b14 }
{
    Size {
        width: bits::word(b12, bits::digits(b14, 4, 4)),
        height: bits::word(b13, bits::digits(b14, 0, 4)),
    }
}

pub fn border_of(b15: u8, b16: u8) -> Border
    ensures { result ≡ border_of b15 b16 }
{
    Border {
        across: Pixels(b15 as u16),
        down: Lines(b16 as u16),
    }
}

pub fn polarity_of(positive: bool) -> SyncPolarity
    ensures { result ≡ polarity_of positive }
{
    if positive {
        SyncPolarity::Positive
    } else {
        SyncPolarity::Negative
    }
}

// By digits 6, 5 and 0 of the last byte.
fn stereo_by(six: bool, five: bool, zero: bool) -> StereoType
    ensures { result ≡ stereo_by six five zero }
{
    match (six, five, zero) {
        (false, false, _) => StereoType::None,
        (false, true, false) => StereoType::SequentialRightSync,
        (true, false, false) => StereoType::SequentialLeftSync,
        (false, true, true) => StereoType::InterleavedLinesRightEven,
        (true, false, true) => StereoType::InterleavedLinesLeftEven,
        (true, true, false) => StereoType::Interleaved4Way,
        (true, true, true) => StereoType::SideBySide,
    }
}

pub fn stereo_of(b17: u8) -> StereoType
    ensures { result ≡ stereo_of b17 }
{
    stereo_by(
        bits::is_set(b17, 6),
        bits::is_set(b17, 5),
        bits::is_set(b17, 0),
    )
}
