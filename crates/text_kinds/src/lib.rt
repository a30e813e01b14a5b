// What the words of a line stand for, and the forms of lines. A word that is missing is the empty one, which stands for nothing.
#![tactic(auto)]

ghost use Rattle.std.specs.Prelude.{◌≤◌, ◌≡◌, ℕ, true, false, min};
ghost use Rattle.text_words.specs.Words.{words, same, ◌word◌};
ghost use Rattle.text_kinds.specs.Kinds.{is_number};
ghost use Rattle.text_kinds.specs.Kinds as kinds;
ghost use Rattle.text_kinds.specs.Answers as answers;

// The bytes of a text or of a run, then zeros.
#[derive(Drop)]
pub struct Kept {
    pub bytes: [u8; 13],
    pub len: usize,
}

// What comes next in a text or a run: a byte, with what stands behind it, or the end.
#[derive(Clone, Copy)]
enum Next<'a> {
    Byte(u8, &'a [u8]),
    Ends,
}

// ---- numbers

// A type of unsigned numbers that a word may stand for.
pub trait Unsigned: Sized {
    // The most that it holds, and which number a value is.
    ghost most: { ℕ };

    ghost value: { Self → ℕ };

    fn most() -> u32
        ensures { result ≡ most };

    // The number as such a value, or the most that it holds.
    fn of(n: u32) -> Self
        ensures { value result ≡ min n most };
}

impl Unsigned for u8 {
    ghost most = { 255 };

    ghost value = { λ n. n };

    fn most() -> u32 {
        u8::MAX as u32
    }

    fn of(n: u32) -> u8 {
        n.min(255) as u8
    }
}

impl Unsigned for u16 {
    ghost most = { 65535 };

    ghost value = { λ n. n };

    fn most() -> u32 {
        u16::MAX as u32
    }

    fn of(n: u32) -> u16 {
        n.min(65535) as u16
    }
}

impl Unsigned for u32 {
    ghost most = { 4294967295 };

    ghost value = { λ n. n };

    fn most() -> u32 {
        u32::MAX
    }

    fn of(n: u32) -> u32 {
        n
    }
}

// Some digit comes first, and no zero before another.
fn is_led(w: &[u8]) -> bool
    ensures { result ≡ kinds.is_led w.now }
{
    match w {
        [] => false,
        [_] => true,
        [first, ..] => *first != b'0',
    }
}

// The number that digits stand for, where it has at most 32 bits.
fn digits(w: &[u8]) -> Option<u32>
    ensures { result ≡ answers.digits_in w.now }
{
    let mut value: u32 = 0;
    for b in w {
        if !matches!(*b, b'0'..=b'9') {
            return None;
        }
        value = value.checked_mul(10)?.checked_add((*b - b'0') as u32)?;
    }
    Some(value)
}

#[tactic(auto, unfolding(crate::specs::Kinds::is_number))]
fn number_in(w: &[u8], most: u32) -> Option<u32>
    ensures { result ≡ answers.number_in most w.now }
{
    if !is_led(w) {
        return None;
    }
    let value = digits(w)?;
    if value <= most { Some(value) } else { None }
}

// ---- letters

#[tactic(auto, unfolding(crate::specs::Kinds::is_letter))]
fn is_letter(w: &[u8]) -> bool
    ensures { result ≡ kinds.is_letter w.now }
{
    matches!(w, [b'0' | b'A'..=b'Z'])
}

#[tactic(auto, unfolding(crate::specs::Kinds::letter_of))]
fn letter_in(w: &[u8]) -> u8
    ensures { result ≡ kinds.letter_of w.now }
{
    match w {
        [b @ b'A'..=b'Z'] => *b,
        _ => 0,
    }
}

// ---- bytes

fn hex_value(b: u8) -> Option<u8>
    ensures { result ≡ answers.hex_digit b }
{
    match b {
        b'0'..=b'9' => Some(b - b'0'),
        b'a'..=b'f' => Some(b - b'a' + 10),
        _ => None,
    }
}

// The byte of two hexadecimal digits.
fn hex_pair(a: u8, b: u8, rest: &[u8]) -> Option<Next<'_>>
    ensures { answers.piece_of result ≡ kinds.hex_pair a b rest.now }
{
    let high = hex_value(a)?;
    let low = hex_value(b)?;
    Some(Next::Byte(16 * high + low, rest))
}

#[tactic(auto, unfolding(crate::specs::Kinds::piece))]
fn text_piece(w: &[u8]) -> Option<Next<'_>>
    ensures { answers.piece_of result ≡ kinds.piece true w.now }
{
    match w {
        [b'"'] => Some(Next::Ends),
        [b'\\', b'x', a, b, rest @ ..] => hex_pair(*a, *b, rest),
        [b, rest @ ..] if text_words::is_plain(*b) => Some(Next::Byte(*b, rest)),
        _ => None,
    }
}

#[tactic(auto, unfolding(crate::specs::Kinds::piece))]
fn run_piece(w: &[u8]) -> Option<Next<'_>>
    ensures { answers.piece_of result ≡ kinds.piece false w.now }
{
    match w {
        [] => Some(Next::Ends),
        [a, b, rest @ ..] => hex_pair(*a, *b, rest),
        _ => None,
    }
}

fn piece(w: &[u8], quoted: bool) -> Option<Next<'_>>
    ensures { answers.piece_of result ≡ kinds.piece quoted w.now }
{
    if quoted { text_piece(w) } else { run_piece(w) }
}

// ---- bytes gathered

// All bytes to the end.
fn gather(w: &[u8], quoted: bool) -> Option<Kept>
    ensures { result ≡ answers.kept_of (kinds.bytes_from quoted 13 w.now) }
{
    let mut bytes = [0u8; 13];
    let mut rest = w;
    for len in 0..13 {
        match piece(rest, quoted)? {
            Next::Byte(b, behind) => {
                bytes[len] = b;
                rest = behind;
            }
            Next::Ends => return Some(Kept { bytes, len }),
        }
    }
    match piece(rest, quoted)? {
        Next::Byte(_, _) => None,
        Next::Ends => Some(Kept { bytes, len: 13 }),
    }
}

#[tactic(auto, unfolding(crate::specs::Kinds::text_of))]
fn text_in(w: &[u8]) -> Option<Kept>
    ensures { result ≡ answers.kept_of (kinds.text_of w.now) }
{
    match w {
        [b'"', rest @ ..] => gather(rest, true),
        _ => None,
    }
}

#[tactic(auto, unfolding(crate::specs::Kinds::run_of))]
fn run_in(w: &[u8]) -> Option<Kept>
    ensures { result ≡ answers.kept_of (kinds.run_of w.now) }
{
    if w.is_empty() { None } else { gather(w, false) }
}

// ---- forms

#[tactic(auto, unfolding(crate::specs::Kinds::most_of))]
fn most_of(k: u8) -> u32
    ensures { result ≡ kinds.most_of k }
{
    match k {
        b'f' => 1,
        b't' => 3,
        b's' => 6,
        b'b' => 255,
        b'h' => 65535,
        _ => 4294967295,
    }
}

#[tactic(auto, unfolding(crate::specs::Kinds::may_be))]
fn may_be(k: u8, w: &[u8]) -> bool
    ensures { result ≡ kinds.may_be k w.now }
{
    match k {
        b'L' => is_letter(w),
        b'q' => text_in(w).is_some(),
        b'x' => run_in(w).is_some(),
        _ => number_in(w, most_of(k)).is_some(),
    }
}

#[tactic(auto, unfolding(crate::specs::Kinds::may))]
fn may(f: &[u8], w: &[u8]) -> bool
    ensures { result ≡ kinds.may f.now w.now }
{
    match f {
        [k] => may_be(*k, w),
        _ => text_words::same(f, w),
    }
}

// Whether a line has a form, word for word.
pub fn fits(l: &[u8], form: &[u8]) -> bool
    ensures { result ≡ kinds.fits (words form.now) (words l.now) }
{
    let n = text_words::count(form);
    (0..n).all(|k| may(text_words::word(form, k), text_words::word(l, k)))
        && text_words::ends_at(l, n - 1)
}

// ---- the word at k of a line

// `k` is another at each call: methods of a line would be no plainer than these.

pub fn number<N: Unsigned>(l: &[u8], k: usize) -> N
    ensures { N.value result ≡ kinds.number_of N.most (l.now word k) }
{
    N::of(number_in(text_words::word(l, k), N::most()).unwrap_or(0))
}

pub fn is_byte(l: &[u8], k: usize) -> bool
    ensures { result ≡ is_number 255 (l.now word k) }
{
    number_in(text_words::word(l, k), 255).is_some()
}

#[tactic(auto, unfolding(crate::specs::Kinds::flag_of, crate::specs::Kinds::number_of))]
pub fn flag(l: &[u8], k: usize) -> bool
    ensures { result ≡ kinds.flag_of (l.now word k) }
{
    number_in(text_words::word(l, k), 1) == Some(1)
}

pub fn letter(l: &[u8], k: usize) -> u8
    ensures { result ≡ kinds.letter_of (l.now word k) }
{
    letter_in(text_words::word(l, k))
}

pub fn is_word(l: &[u8], k: usize, w: &[u8]) -> bool
    ensures { result ≡ same (l.now word k) w.now }
{
    text_words::same(text_words::word(l, k), w)
}

// The bytes of a text, or of a run.
pub fn text(l: &[u8], k: usize) -> Option<Kept>
    ensures { result ≡ answers.kept_of (kinds.text_of (l.now word k)) }
{
    text_in(text_words::word(l, k))
}

pub fn run(l: &[u8], k: usize) -> Option<Kept>
    ensures { result ≡ answers.kept_of (kinds.run_of (l.now word k)) }
{
    run_in(text_words::word(l, k))
}
