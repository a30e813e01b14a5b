// Runs of bytes as spans of the input: a text of at most 13 with its padding, raw runs, and bytes skipped.
#![tactic(auto)]

ghost use Rattle.std.specs.Prelude.{◌-◌, ◌≤◌};
ghost use Rattle.steps.specs.Took.{Took};
ghost use Rattle.crate_text.specs.Text.{scan, padding, text, skip, span};

use steps::{Cursor, Refusal, Span};

// The place of the first 0x0a, or 13.
fn take_scan(c: &mut Cursor) -> Result<usize, Refusal>
    ensures { Took (scan 13 0) c.old result c.new }
{
    for i in 0..13 {
        if c.byte()? == 0x0a {
            return Ok(i);
        }
    }
    Ok(13)
}

// What follows a text of n bytes within the 13.
fn take_padding(c: &mut Cursor, n: usize) -> Result<(), Refusal>
    ensures { Took (padding (12 - n)) c.old result c.new }
{
    for _ in n..12 {
        if c.byte()? != 0x20 {
            return Err(Refusal {
                number: 5,
                at: c.at,
            });
        }
    }
    Ok(())
}

// One test for all n bytes: a skipped byte is not looked at.
pub fn take_skip(c: &mut Cursor, n: usize) -> Result<(), Refusal>
    ensures { Took (skip n) c.old result c.new }
{
    let left = c.bytes.len().saturating_sub(c.at);
    if n <= left {
        c.at += n;
        return Ok(());
    }
    c.at += left;
    Err(Refusal {
        number: 1,
        at: c.at,
    })
}

pub fn take_span(c: &mut Cursor, n: usize) -> Result<Span, Refusal>
    ensures { Took (span n) c.old result c.new }
{
    let start = c.at;
    take_skip(c, n)?;
    Ok(Span { start, len: n })
}

pub fn take_text(c: &mut Cursor) -> Result<Span, Refusal>
    ensures { Took text c.old result c.new }
{
    let start = c.at;
    let len = take_scan(c)?;
    take_padding(c, len)?;
    Ok(Span { start, len })
}
