// Packed fields: the code has & | << >>, the contracts have / % * + alone. And the bytes of a slice by their places.
#![tactic(auto)]

ghost use Rattle.std.specs.Prelude.{◌≡◌, ◌+◌, ◌*◌, ◌%◌, ◌^◌, ◌<◌, ◌≤◌};
ghost use Rattle.bits.specs.Fields.{digits, bit};
ghost use Rattle.bits.specs.Bytes.{◌!◌, part};

// The `width` binary digits of v from digit `shift` up: the one place where digits are cut out.
fn cut(v: u16, shift: u8, width: u8) -> u16
    requires { (shift < 16) × (width < 16) }
    ensures { (result ≡ digits v shift width) × (result ≤ v) }
{
    (v >> shift) & ((1 << width) - 1)
}

// digits(b, 6, 2) are the top two of a byte. Both numbers count modulo 8.
pub fn digits(b: u8, shift: u8, width: u8) -> u8
    ensures { result ≡ digits b (shift % 8) (width % 8) }
{
    cut(b as u16, shift % 8, width % 8) as u8
}

// The same of a 16-bit value, modulo 16: digits16(v, 10, 5) is the maker's first letter.
pub fn digits16(v: u16, shift: u8, width: u8) -> u16
    ensures { result ≡ digits v (shift % 16) (width % 16) }
{
    cut(v, shift % 16, width % 16)
}

// Whether digit k of a byte is 1; k counts modulo 8.
pub fn is_set(b: u8, k: u8) -> bool
    ensures { result ≡ bit b (k % 8) }
{
    cut(b as u16, k % 8, 1) == 1
}

// Whether digit k of a 16-bit value is 1; k counts modulo 16.
pub fn is_set16(v: u16, k: u8) -> bool
    ensures { result ≡ bit v (k % 16) }
{
    cut(v, k % 16, 1) == 1
}

// Two bytes, the low one first.
pub fn word(low: u8, high: u8) -> u16
    ensures { result ≡ low + 256 * high }
{
    (low as u16) | ((high as u16) << 8)
}

// Two words, the low one first.
pub fn long(low: u16, high: u16) -> u32
    ensures { result ≡ low + 65536 * high }
{
    (low as u32) | ((high as u32) << 16)
}

// `high` above the last `width` digits of `low`: a chromaticity is stack(high, two, 2). The width counts modulo 8.
pub fn stack(high: u8, low: u8, width: u8) -> u16
    ensures { result ≡ low % 2 ^ (width % 8) + 2 ^ (width % 8) * high }
{
    let under = digits(low, 0, width);
    (under as u16) | ((high as u16) << (width % 8))
}

// The byte at k; past the end it is 0.
pub fn byte_at(s: &[u8], k: usize) -> u8
    ensures { result ≡ s.now ! k }
{
    if k < s.len() { s[k] } else { 0 }
}

// The n bytes from k on, as far as there are any.
pub fn part(s: &[u8], k: usize, n: usize) -> &[u8]
    ensures { result.now ≡ part s.now k n }
{
    if k >= s.len() {
        return &s[0..0];
    }
    let rest = &s[k..];
    if n <= rest.len() { &rest[0..n] } else { rest }
}
