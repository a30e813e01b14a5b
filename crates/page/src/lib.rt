// Text appended to a page of 4,096 bytes that the caller lends. Where the page is full the rest is dropped.
#![tactic(auto)]

ghost use Rattle.std.specs.Prelude.{ℕ, List, ◌≡◌, [], ◌∷◌, length, min, take, drop};
ghost use Rattle.std.specs.Float.{binary32};
ghost use Rattle.std.specs.Float.Ieee.{to_bits};
ghost use Rattle.page.specs.Page.{◌▷◌};
ghost use Rattle.page.specs.Words as words;

// A page that is lent, of which the first `at` bytes are used.
#[derive(Drop)]
pub struct Page<'a> {
    pub out: &'a mut [u8; 4096],
    pub at: usize,
}

// A number of a line: what it is as text, with a space before it.
pub trait Number {
    ghost field: { Self → List ℕ };

    fn write(self, page: &mut Page)
        ensures { page.new ≡ page.old ▷ field self };
}

impl Number for usize {
    ghost field = { words.field };

    #[tactic(auto, using(crate::specs::Laws::joined), unfolding(crate::specs::Words::field))]
    fn write(self, page: &mut Page) {
        page.space();
        page.decimal(self);
    }
}

impl Number for u32 {
    ghost field = { words.field32 };

    #[tactic(auto, using(crate::specs::Laws::short32))]
    fn write(self, page: &mut Page) {
        (self as usize).write(page);
    }
}

impl Number for u16 {
    ghost field = { words.field16 };

    #[tactic(auto, using(crate::specs::Laws::short16))]
    fn write(self, page: &mut Page) {
        (self as usize).write(page);
    }
}

impl Number for u8 {
    ghost field = { words.field8 };

    #[tactic(auto, using(crate::specs::Laws::short8))]
    fn write(self, page: &mut Page) {
        (self as usize).write(page);
    }
}

impl<'a> Page<'a> {
    // One byte.
    pub fn put(&mut self, b: u8)
        ensures { self.new ≡ self.old ▷ (b ∷ []) }
    {
        if self.at < 4096 {
            self.out[self.at] = b;
            self.at += 1;
        } else {
            self.at = 4096;
        }
    }

    // All of s.
    #[tactic(auto, using(crate::specs::Laws::appends))]
    pub fn bytes(&mut self, s: &[u8])
        ensures { self.new ≡ self.old ▷ s.now }
    {
        for b in s {
            self.put(*b);
        }
    }

    pub fn space(&mut self)
        ensures { self.new ≡ self.old ▷ words.space }
    {
        self.put(b' ');
    }

    pub fn newline(&mut self)
        ensures { self.new ≡ self.old ▷ words.newline }
    {
        self.put(b'\n');
    }

    // n in decimal, with no zeros in front.
    fn decimal(&mut self, n: usize)
        ensures { self.new ≡ self.old ▷ words.decimal_in 19 n }
    {
        if n < 10 {
            self.put(48 + n as u8);
        } else {
            self.decimal(n / 10);
            self.put(48 + (n % 10) as u8);
        }
    }

    // A space, and n in decimal: a number of a line.
    pub fn field<N: Number>(&mut self, n: N)
        ensures { self.new ≡ self.old ▷ N.field n }
    {
        n.write(self);
    }

    // A space, and 1 or 0.
    #[tactic(auto, unfolding(crate::specs::Words::flag))]
    pub fn flag(&mut self, b: bool)
        ensures { self.new ≡ self.old ▷ words.flag b }
    {
        self.bytes(if b { b" 1" } else { b" 0" });
    }

    // The last two, four and eight hexadecimal digits of n.
    #[tactic(auto, using(crate::specs::Laws::joined), unfolding(crate::specs::Words::hex_of2))]
    fn hex2(&mut self, n: u32)
        ensures { self.new ≡ self.old ▷ words.hex_of2 n }
    {
        self.put(digit(n / 16));
        self.put(digit(n));
    }

    #[tactic(auto, using(crate::specs::Laws::joined), unfolding(crate::specs::Words::hex_of4))]
    fn hex4(&mut self, n: u32)
        ensures { self.new ≡ self.old ▷ words.hex_of4 n }
    {
        self.hex2(n / 256);
        self.hex2(n);
    }

    #[tactic(auto, using(crate::specs::Laws::joined), unfolding(crate::specs::Words::hex_of8))]
    fn hex8(&mut self, n: u32)
        ensures { self.new ≡ self.old ▷ words.hex_of8 n }
    {
        self.hex4(n / 65536);
        self.hex4(n);
    }

    // A space, and the bits of x as eight hexadecimal digits.
    #[tactic(auto, using(crate::specs::Laws::joined), unfolding(crate::specs::Words::float))]
    pub fn float(&mut self, x: f32)
        ensures { self.new ≡ self.old ▷ words.float x }
    {
        self.space();
        self.hex8(bits(x));
    }

    // Each byte of s as two hexadecimal digits.
    #[tactic(auto, using(crate::specs::Laws::appends), unfolding(crate::specs::Words::each))]
    fn hex_run(&mut self, s: &[u8])
        ensures { self.new ≡ self.old ▷ words.each words.hex_of2 s.now }
    {
        for x in s {
            self.hex2(u32::from(*x));
        }
    }

    // The len bytes of s from start on, or as many of them as s has, each as two hexadecimal digits.
    pub fn hex_span(&mut self, s: &[u8], start: usize, len: usize)
        ensures { self.new ≡ self.old ▷ words.each words.hex_of2 (take len (drop start s.now)) }
    {
        let rest = &s[least(start, s.len())..];
        self.hex_run(&rest[..least(len, rest.len())]);
    }
}

// The lesser of two.
pub fn least(a: usize, b: usize) -> usize
    ensures { result ≡ min a b }
{
    a.min(b)
}

// How many bytes a page has.
pub fn size(out: &[u8; 4096]) -> usize
    ensures { (result ≡ 4096) × (length out.now ≡ 4096) }
{
    out.len()
}

// The hexadecimal digit of n % 16, in lower case.
fn digit(n: u32) -> u8
    ensures { result ≡ words.hex_digit n }
{
    let d = (n % 16) as u8;
    if d < 10 { 48 + d } else { 87 + d }
}

// The bits of any f32. `f32::to_bits` asks that x is no NaN, which the test shows; a NaN is given
// the pattern that `to_bits` gives it.
fn bits(x: f32) -> u32
    ensures { result ≡ to_bits binary32 x }
{
    if x == x { f32::to_bits(x) } else { 0x7fc00000 }
}
