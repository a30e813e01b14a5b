// The words of a line of text, and what each stands for.
#![tactic(auto)]

ghost use Rattle.std.specs.Prelude.{◌+◌, ◌≤◌, ◌≡◌, false, eqb, length, drop};
ghost use Rattle.text_words.specs.Words.{is_blank, is_plain, parts, turned, words, ◌word◌, last_word, same};
ghost use Rattle.text_words.specs.Scan.{word_length, gap_length};
ghost use Rattle.text_words.specs.Walk.{Walked};

// Where a word stands, and which it is.
#[derive(Clone, Copy)]
pub struct Place {
    pub start: usize,
    pub end: usize,
    pub index: usize,
}

fn is_blank(b: u8) -> bool
    ensures { result ≡ is_blank b }
{
    matches!(b, b' ' | b'\t')
}

pub fn is_plain(b: u8) -> bool
    ensures { result ≡ is_plain b }
{
    matches!(b, b' '..=b'~') && b != b'"' && b != b'\\'
}

// Whether b stands between words, and whether what follows it is inside of quotes.
fn parts(quoted: bool, b: u8) -> bool
    ensures { result ≡ parts quoted b }
{
    !quoted && is_blank(b)
}

fn turned(quoted: bool, b: u8) -> bool
    ensures { result ≡ turned quoted b }
{
    quoted != (b == b'"')
}

// Where the word ends that begins at `at`.
fn word_end(l: &[u8], at: usize) -> usize
    requires { at ≤ length l.now }
    ensures { result ≡ at + word_length false (drop at l.now) }
{
    let mut quoted = false;
    for k in at..l.len() {
        if parts(quoted, l[k]) {
            return k;
        }
        quoted = turned(quoted, l[k]);
    }
    l.len()
}

// Where the blanks end that begin at `at`.
fn gap_end(l: &[u8], at: usize) -> usize
    requires { at ≤ length l.now }
    ensures { result ≡ at + gap_length (drop at l.now) }
{
    let blanks = l[at..].iter().take_while(|&&b| is_blank(b)).count();
    at + blanks
}

// The word at k; the last one where there are fewer.
fn walk(l: &[u8], k: usize) -> Place
    ensures { Walked l.now k result }
{
    let mut start = 0;
    let mut end = word_end(l, 0);
    for index in 0..k {
        if end == l.len() {
            return Place { start, end, index };
        }
        start = gap_end(l, end);
        end = word_end(l, start);
    }
    Place {
        start,
        end,
        index: k,
    }
}

pub fn word(l: &[u8], k: usize) -> &[u8]
    ensures { result.now ≡ l.now word k }
{
    let Place { start, end, index } = walk(l, k);
    if index == k { &l[start..end] } else { &[] }
}

// How many words a line has.
pub fn count(l: &[u8]) -> usize
    ensures { result ≡ length (words l.now) }
{
    walk(l, l.len()).index + 1
}

// Whether no word stands behind the one at k.
pub fn last_word(l: &[u8], k: usize) -> bool
    ensures { result ≡ last_word l.now k }
{
    let at = walk(l, k);
    at.index < k || at.end == l.len()
}

// Whether the word at k is there and is the last one.
pub fn ends_at(l: &[u8], k: usize) -> bool
    ensures { result ≡ eqb (length (words l.now)) (k + 1) }
{
    let at = walk(l, k);
    at.index == k && at.end == l.len()
}

// Whether two words are the same.
pub fn same(v: &[u8], w: &[u8]) -> bool
    ensures { result ≡ same v.now w.now }
{
    v == w
}
