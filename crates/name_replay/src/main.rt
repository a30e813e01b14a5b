// Answers many pairs of blocks in one run, to be held to tools/namer.py. A frame of standard input is the panel's block and then the reference block, each
// as its length in 16 bits, low byte first, then as many bytes, at most 4,096; for each frame the line of the name to show is written, then a line `--`.
#![tactic(auto)]

use frames::Came;
use page::Page;
use std::io;
use std::io::{Eprint, Read, Write};

fn main(rt: HostRuntime) -> io::Result<()> {
    for number in 0..frames::MOST {
        if !answer_one(&mut rt.stdin(), &mut rt.stdout(), &rt, number)? {
            break;
        }
    }
    Ok(())
}

// Reads one frame and answers it; whether to go on.
fn answer_one<R: Read, W: Write, E: Eprint>(
    input: &mut R,
    output: &mut W,
    errors: &E,
    number: u64,
) -> io::Result<bool> {
    let mut panel = [0u8; 4096];
    let mut reference = [0u8; 4096];
    match frames::read_frame(input, &mut panel)? {
        Came::Nothing => Ok(false),
        Came::Part => cut_short(errors, number),
        Came::TooLong => too_long(errors, number),
        Came::All(n) => match frames::read_frame(input, &mut reference)? {
            Came::Nothing => cut_short(errors, number),
            Came::Part => cut_short(errors, number),
            Came::TooLong => too_long(errors, number),
            Came::All(m) => answer(
                output,
                frames::start(&panel, n),
                frames::start(&reference, m),
            ),
        },
    }
}

// Writes the line of a frame, after which the next one is read.
fn answer<'a, W: Write>(output: &mut W, panel: &'a [u8], reference: &'a [u8]) -> io::Result<bool> {
    let mut out = [0u8; 4096];
    let at = name_lines::listing(&mut out, panel, reference);
    let mut page = Page { out: &mut out, at };
    page.bytes(b"--\n");
    let end = page.at;
    output.write_all(frames::start(&out, end))?;
    Ok(true)
}

// A line on standard error, and no further frame.
fn cut_short<E: Eprint>(errors: &E, number: u64) -> io::Result<bool> {
    eprintln!(errors; "frame {number} is cut short")?;
    Ok(false)
}

fn too_long<E: Eprint>(errors: &E, number: u64) -> io::Result<bool> {
    eprintln!(errors; "frame {number} is longer than 4096")?;
    Ok(false)
}
