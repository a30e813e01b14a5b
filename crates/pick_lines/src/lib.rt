// What the program `pick` is asked and what it prints: three limits in the first line, then a block; the index of the timing to show, and its line.
#![tactic(auto)]

ghost use Rattle.std.specs.Prelude.{◌≤◌, ◌≡◌, length, take, drop, IfSome};
ghost use Rattle.page.specs.Page.{◌▷◌};
ghost use Rattle.picking.specs.Best.{listed};
ghost use Rattle.picking.specs.Score.{choice};
ghost use Rattle.pick_lines.specs.Asked.{is_digit, number_from, asked_in, Bounded, Inside};
ghost use Rattle.pick_lines.specs.Lines as lines;

use page::Page;
use picking::Limits;
use standard_record::{DetailedTimings, StandardReading};
use timing::{Lines, Pixels};

// ---- what is asked

// A number, and where what follows begins.
#[derive(Clone, Copy)]
pub struct Number {
    pub value: usize,
    pub next: usize,
}

// The limits, and where the block begins.
#[derive(Clone, Copy)]
pub struct Asked {
    pub limits: Limits,
    pub block: usize,
}

fn is_digit(b: u8) -> bool
    ensures { result ≡ is_digit b }
{
    b >= 48 && b < 58
}

// The decimal digits from `from` on, at least one, with `end` behind the last; their number is at most `top`.
fn read_number(s: &[u8], from: usize, end: u8, top: usize) -> Option<Number>
    requires { top ≤ 4294967295 }
    ensures { (result ≡ number_from top end from s.now) × IfSome result (Bounded top (length s.now)) }
{
    let mut value = 0;
    for at in from..s.len() {
        let b = s[at];
        if b == end {
            if at == from {
                return None;
            }
            return Some(Number {
                value,
                next: at + 1,
            });
        }
        if !is_digit(b) {
            return None;
        }
        value = value * 10 + (b - 48) as usize;
        if value > top {
            return None;
        }
    }
    None
}

// Nothing where the first line is no such line.
pub fn limits_in(s: &[u8]) -> Option<Asked>
    ensures { (result ≡ asked_in s.now) × IfSome result (Inside (length s.now)) }
{
    let clock = read_number(s, 0, b' ', 4294967295)?;
    let across = read_number(s, clock.next, b' ', 65535)?;
    let down = read_number(s, across.next, b'\n', 65535)?;
    Some(Asked {
        limits: Limits {
            clock: clock.value as u32,
            across: Pixels(across.value as u16),
            down: Lines(down.value as u16),
        },
        block: down.next,
    })
}

// ---- what is answered

fn choice_lines(page: &mut Page, limits: Limits, list: DetailedTimings)
    ensures { page.new ≡ page.old ▷ lines.choice_lines list (choice limits (listed list)) }
{
    match picking::choose(limits, list) {
        Err(number) => {
            page.bytes(b"refuse");
            page.field(number);
            page.newline();
        }
        Ok(i) => {
            page.bytes(b"pick");
            page.field(i);
            page.newline();
            standard_slot_lines::detailed_line(page, list.items[i]);
        }
    }
}

#[tactic(auto, unfolding(crate::specs::Lines::reading_lines))]
fn reading_lines(page: &mut Page, limits: Limits, t: StandardReading)
    ensures { page.new ≡ page.old ▷ lines.reading_lines limits t }
{
    match t.end {
        Err(f) => shared_lines::refuse_line(page, f),
        Ok(()) => choice_lines(page, limits, t.edid.timings.detailed),
    }
}

fn answer_lines(page: &mut Page, s: &[u8])
    ensures { page.new ≡ page.old ▷ lines.answer s.now }
{
    match limits_in(s) {
        None => page.bytes(
            b"limits: the first line has to be three decimal numbers with one space between, as 165000000 1920 1200: the highest clock in Hz, the most pixels across, the most lines; at most 4294967295 65535 65535\n",
        ),
        Some(asked) => reading_lines(
            page,
            asked.limits,
            standard_reading::read_standard(&s[asked.block..]),
        ),
    }
}

// Every answer fits a page: the first r bytes are all of it, and the rest of the page is as it was.
pub fn listing(out: &mut [u8; 4096], s: &[u8]) -> usize
    ensures { (take result out.new ≡ lines.answer s.now) × (drop result out.new ≡ drop result out.old) }
{
    let mut page = Page { out, at: 0 };
    answer_lines(&mut page, s);
    page.at
}
