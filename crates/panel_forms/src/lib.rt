// The forms of the lines of a panel's text.
#![tactic(auto)]

ghost use Rattle.std.specs.Prelude.{◌≡◌, ◌≤◌, None, IfSome};
ghost use Rattle.text_words.specs.Words.{words};
ghost use Rattle.text_lines.specs.Lines.{lines, counted};
ghost use Rattle.panel_forms.specs.Numbers.{kind_number};
ghost use Rattle.panel_forms.specs.Forms.{any_of, bytes_behind, are_established, is_line};

// The kinds of lines, in the order in which they stand.
#[derive(Clone, Copy)]
pub enum LineKind {
    Product,
    Version,
    Input,
    Size,
    Gamma,
    Features,
    Chroma,
    White,
    Established,
    Standard,
    Detailed,
    Descriptor,
    Extensions,
}

// Whether a line has one of the forms, each on a line of its own.
fn any_of(l: &[u8], forms: &[u8]) -> bool
    ensures { result ≡ any_of (counted (lines forms.now)) l.now }
{
    for k in 0..forms.len() {
        let form = text_lines::content(forms, k);
        if form.is_empty() {
            return false;
        }
        if text_kinds::fits(l, form) {
            return true;
        }
    }
    false
}

// Whether the words behind the first are numbers of 8 bits, at most 17.
fn bytes_behind(l: &[u8]) -> bool
    ensures { result ≡ bytes_behind (words l.now) }
{
    for k in 0..18 {
        if text_words::last_word(l, k) {
            return true;
        }
        if !text_kinds::is_byte(l, k + 1) {
            return false;
        }
    }
    false
}

#[tactic(auto, unfolding(crate::specs::Forms::are_established))]
fn are_established(l: &[u8]) -> bool
    ensures { result ≡ are_established l.now }
{
    text_kinds::is_word(l, 0, b"established") && bytes_behind(l)
}

// The kind of that number, from 0 on in their order.
fn kind_of(n: u8) -> Option<LineKind>
    ensures none { result ≡ None → 13 ≤ n }
    ensures some { IfSome result (λ k. kind_number k ≡ n) }
{
    match n {
        0 => Some(LineKind::Product),
        1 => Some(LineKind::Version),
        2 => Some(LineKind::Input),
        3 => Some(LineKind::Size),
        4 => Some(LineKind::Gamma),
        5 => Some(LineKind::Features),
        6 => Some(LineKind::Chroma),
        7 => Some(LineKind::White),
        8 => Some(LineKind::Established),
        9 => Some(LineKind::Standard),
        10 => Some(LineKind::Detailed),
        11 => Some(LineKind::Descriptor),
        12 => Some(LineKind::Extensions),
        _ => None,
    }
}

// Whether a line is of a kind.
#[tactic(auto, unfolding(crate::specs::Forms::is_line))]
pub fn is_of(l: &[u8], kind: LineKind) -> bool
    ensures { result ≡ is_line (kind_number kind) l.now }
{
    match kind {
        LineKind::Product => any_of(l, b"product L L L h w b h\nproduct L L L h w model h"),
        LineKind::Version => any_of(l, b"version b b"),
        LineKind::Input => any_of(
            l,
            b"analog b f f f f f\ndigital f\ndigital undefined b\ndigital b b\ndigital reserved b",
        ),
        LineKind::Size => any_of(l, b"size none\nsize h h\nsize ratio h h"),
        LineKind::Gamma => any_of(l, b"gamma none\ngamma h"),
        LineKind::Features => any_of(
            l,
            b"dpms f f f t f f f\ndpms f f f e0 f f f\ndpms f f f e1 f f f\ndpms f f f e2 f f f\ndpms f f f e3 f f f",
        ),
        LineKind::Chroma => any_of(l, b"chroma h h h h h h h h"),
        LineKind::White => any_of(l, b"white b h h none h\nwhite b h h h h"),
        LineKind::Established => are_established(l),
        LineKind::Standard => any_of(l, b"standard h h h h h"),
        LineKind::Detailed => any_of(l, b"detailed w h h h h h h h h h h h h f s t f f h"),
        LineKind::Descriptor => any_of(
            l,
            b"serial q h\ntext q h\nname q h\nundefined b x h\nmaker b x h\nrange h h w w w none h\nrange h h w w w gtf w b h b b h\nrange h h w w w other b x h",
        ),
        LineKind::Extensions => any_of(l, b"extensions b"),
    }
}

// The same by the kind's number; none has a number above 12.
pub fn is_line(l: &[u8], kind: u8) -> bool
    ensures { result ≡ is_line kind l.now }
{
    match kind_of(kind) {
        Some(kind) => is_of(l, kind),
        None => false,
    }
}
