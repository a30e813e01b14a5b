// Answers many scripts of bursts in one run, to be held to edid-rs. A script of standard input is the number of its bursts in 16 bits, low
// byte first, then each burst, its length in 16 bits and as many bytes. For each burst a line says what is told after it, `waiting` or the
// answer; after the last one the crate listing of the final answer is written, then a line `--`.
#![tactic(auto)]

use bursts::Report;
use frames::Came;
use page::Page;
use std::io;
use std::io::{Read, Write};

fn main(rt: HostRuntime) -> io::Result<()> {
    let mut space = [0u8; 65536];
    let mut out = [0u8; 4096];
    for number in 0..frames::MOST {
        match answer_one(&mut rt.stdin(), &mut rt.stdout(), &mut space, &mut out)? {
            Script::Whole => {}
            Script::None => break,
            Script::Part => return eprintln!(rt; "script {number} is cut short"),
        }
    }
    Ok(())
}

// What was read of a script: three ways, so no Option.
#[derive(Clone, Copy)]
enum Script {
    Whole,
    None,
    Part,
}

// Reads one script and answers it.
fn answer_one<R: Read, W: Write>(
    input: &mut R,
    output: &mut W,
    space: &mut [u8; 65536],
    out: &mut [u8; 4096],
) -> io::Result<Script> {
    let mut head = [0u8; 2];
    let got = frames::fill(input, &mut head)?;
    if got == 0 {
        return Ok(Script::None);
    }
    if got < 2 {
        return Ok(Script::Part);
    }
    let mut state = [0u8; 146];
    for _ in 0..u16::from_le_bytes(head) {
        if !answer_burst(input, output, &mut state, space, out)? {
            return Ok(Script::Part);
        }
    }
    answer_end(output, &state, out)?;
    Ok(Script::Whole)
}

// Reads one burst, hands it over and writes what is told; whether it was there.
fn answer_burst<R: Read, W: Write>(
    input: &mut R,
    output: &mut W,
    state: &mut [u8; 146],
    space: &mut [u8; 65536],
    out: &mut [u8; 4096],
) -> io::Result<bool> {
    let Came::All(n) = frames::read_frame(input, space)? else {
        return Ok(false);
    };
    let mut page = Page { out, at: 0 };
    report_line(&mut page, bursts::take(state, frames::start(space, n)));
    let end = page.at;
    output.write_all(frames::start(out, end))?;
    Ok(true)
}

// The line of what is told after a burst.
fn report_line(page: &mut Page, report: Report) {
    match report {
        None => page.bytes(b"waiting\n"),
        Some(Ok(n)) => {
            page.bytes(b"accept");
            page.field(n);
            page.newline();
        }
        Some(Err(f)) => shared_lines::refuse_line(page, f),
    }
}

// Writes the listing of the final answer.
fn answer_end<W: Write>(output: &mut W, state: &[u8; 146], out: &mut [u8; 4096]) -> io::Result<()> {
    let at = crate_lines::listing(out, bursts::held(state), bursts::finish(state));
    let mut page = Page { out, at };
    page.bytes(b"--\n");
    let end = page.at;
    output.write_all(frames::start(out, end))
}
