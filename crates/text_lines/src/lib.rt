// The lines of a text that count, and their numbers.
#![tactic(auto)]

ghost use Rattle.std.specs.Prelude.{◌+◌, ◌≤◌, ◌≡◌, length, drop};
ghost use Rattle.text_lines.specs.Lines.{is_idle, content, line_number, line_at};
ghost use Rattle.text_lines.specs.Scan.{line_length};
ghost use Rattle.text_lines.specs.Walk.{Found};

// Where a line stands, and its number.
#[derive(Clone, Copy)]
struct Place {
    start: usize,
    end: usize,
    number: usize,
}

// Whether a line does not count: a comment, or nothing but spaces and tabs.
fn is_idle(l: &[u8]) -> bool
    ensures { result ≡ is_idle l.now }
{
    l.starts_with(b"#") || l.iter().all(|&b| matches!(b, b' ' | b'\t'))
}

// Where the line ends that begins at `at`.
fn line_end(s: &[u8], at: usize) -> usize
    requires { at ≤ length s.now }
    ensures { result ≡ at + line_length (drop at s.now) }
{
    match s[at..].iter().position(|&b| b == b'\n') {
        Some(n) => at + n,
        None => s.len(),
    }
}

// The line that counts at k; the empty one at the end of the text where there are fewer.
fn find(s: &[u8], k: usize) -> Place
    ensures { Found s.now k result }
{
    // No range or iterator is plainer: `at` goes on by lines, `left` by those that count, and `split` gives a line more behind a last newline.
    let mut at = 0;
    let mut left = k;
    let mut number = 1;
    while at < s.len() {
        let end = line_end(s, at);
        if !is_idle(&s[at..end]) {
            if left == 0 {
                return Place {
                    start: at,
                    end,
                    number,
                };
            }
            left -= 1;
        }
        at = end + 1;
        number += 1;
    }
    Place {
        start: s.len(),
        end: s.len(),
        number,
    }
}

// The line that counts at k; the empty one where there are fewer.
pub fn content(s: &[u8], k: usize) -> &[u8]
    ensures { result.now ≡ content s.now k }
{
    let Place { start, end, .. } = find(s, k);
    &s[start..end]
}

// Its number; that of the line after the last where there are fewer.
pub fn line_number(s: &[u8], k: usize) -> usize
    ensures { result ≡ line_number s.now k }
{
    find(s, k).number
}

// The number of the line in which the byte at n stands.
pub fn line_at(s: &[u8], n: usize) -> usize
    ensures { result ≡ line_at s.now n }
{
    1 + s.iter().take(n).filter(|&&b| b == b'\n').count()
}
