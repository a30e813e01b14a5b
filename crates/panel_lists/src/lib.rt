// The lists of a panel's record, from the lines of its text.
#![tactic(auto)]

ghost use Rattle.std.specs.Prelude.{ℕ, List, ◌<◌, ◌≡◌, ◌^◌, length, replicate};
ghost use Rattle.std.specs.Option.{option_map};
ghost use Rattle.std.specs.List.{slice_get};
ghost use Rattle.fixed.specs.Gather.{Holds};
ghost use Rattle.panel_entries.specs.Entries.{kept_places};
ghost use Rattle.panel_lists.specs.Laws.{Gives};
ghost use Rattle.panel_lists.specs.Lists.{between, points_of, pairs_of, timings_of, entries_of, bytes_of, numbers_of, established_of};

use shared_record::EstablishedTimings;
use standard_record::{
    BLANK_DETAILED, BLANK_HELD, BLANK_STANDARD, BLANK_WHITE, Descriptors, DetailedTimings,
    StandardTimings, WhitePoints,
};
use text_kinds::Kept;

// The line at i of those from a place on and before another.
fn line(s: &[u8], from: usize, to: usize, i: usize) -> Option<&[u8]>
    ensures { option_map (λ l. l.now) result ≡ slice_get (between s.now from to) i }
{
    if i >= to.saturating_sub(from) {
        return None;
    }
    let l = text_lines::content(s, from + i);
    if l.is_empty() { None } else { Some(l) }
}

// Fills a list with what is given for each place, up to the first place with nothing, and tells how many there are.
fn filled<T: Copy, F: Fn(usize) -> Option<T>>(items: &mut [T], given: F) -> usize
    requires { (i : ℕ) → i < length items.old → F.pre given i }
    ensures { (d : T) (xs : List T) → items.old ≡ replicate (length items.old) d → Gives (F.post given) (length items.old) xs → Holds (length items.old) d xs items.new result }
{
    for i in 0..items.len() {
        match given(i) {
            Some(item) => items[i] = item,
            None => return i,
        }
    }
    items.len()
}

pub fn points(s: &[u8], from: usize, to: usize) -> WhitePoints
    ensures { result ≡ points_of s.now from to }
{
    let mut items = [BLANK_WHITE; 6];
    let len = filled(
        &mut items,
        |i| line(s, from, to, i).map(|l| panel_entries::point(l)),
    );
    WhitePoints { items, len }
}

pub fn pairs(s: &[u8], from: usize, to: usize) -> StandardTimings
    ensures { result ≡ pairs_of s.now from to }
{
    let mut items = [BLANK_STANDARD; 26];
    let len = filled(
        &mut items,
        |i| line(s, from, to, i).map(|l| panel_entries::pair(l)),
    );
    StandardTimings { items, len }
}

pub fn timings(s: &[u8], from: usize, to: usize) -> DetailedTimings
    ensures { result ≡ timings_of s.now from to }
{
    let mut items = [BLANK_DETAILED; 4];
    let len = filled(
        &mut items,
        |i| line(s, from, to, i).map(|l| panel_entries::held_timing(l)),
    );
    DetailedTimings { items, len }
}

// Each keeps its bytes in thirteen places of its own.
pub fn entries(s: &[u8], from: usize, to: usize) -> Descriptors
    ensures { result ≡ entries_of s.now from to }
{
    let mut items = [BLANK_HELD; 3];
    let len = filled(
        &mut items,
        |i| line(s, from, to, i).map(|l| panel_entries::held(l, 13 * i)),
    );
    Descriptors { items, len }
}

// What an entry keeps in its thirteen places.
fn places(kept: Option<Kept>) -> [u8; 13]
    ensures { result ≡ kept_places kept }
{
    match kept {
        Some(kept) => kept.bytes,
        None => [0u8; 13],
    }
}

// The bytes that the entries keep, in their places.
pub fn bytes(s: &[u8], from: usize, to: usize) -> [u8; 39]
    ensures { result ≡ bytes_of s.now from to }
{
    let mut bytes = [0u8; 39];
    for i in 0..3 {
        let Some(l) = line(s, from, to, i) else {
            return bytes;
        };
        bytes[13 * i..13 * i + 13].copy_from_slice(&places(panel_entries::kept(l)));
    }
    bytes
}

// The number in the word behind the one at i.
fn number_behind(l: &[u8], i: usize) -> Option<u8>
    requires { i < 2 ^ 63 }
    ensures { result ≡ slice_get (numbers_of l.now) i }
{
    if text_words::last_word(l, i) {
        None
    } else {
        Some(text_kinds::number(l, i + 1))
    }
}

// The numbers behind the first word of a line.
pub fn established(l: &[u8]) -> EstablishedTimings
    ensures { result ≡ established_of l.now }
{
    let mut items = [0u8; 17];
    let len = filled(&mut items, |i| number_behind(l, i));
    EstablishedTimings { items, len }
}
