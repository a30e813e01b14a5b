// What the programs share: of a buffer, the part that is filled; bytes and frames read; an answer to all of the input, and to each of its frames.
#![tactic(auto)]

ghost use Rattle.std.specs.Prelude.{◌≡◌, ◌<◌, length, take, IfOk, OnOk, IfSome};
ghost use Rattle.std.specs.Io.{ReadsAtMost};
ghost use Rattle.std.specs.Io.KnownBytes.{Consumes, IsAtEnd};
ghost use Rattle.frames.specs.Frame.{ReadsFrame, length_told};
ghost use Rattle.frames.specs.Answer.{Writes};
ghost use Rattle.frames.specs.Run.{AnswersAll};

use std::io;
use std::io::{Eprint, Read, Write};

// A proved loop has to end, and nothing says that the input does: it counts to a number that no run reaches.
pub const MOST: u64 = 4294967296;

// What was read of a frame: its length, nothing, a part of it, or a length that the space has no room for. As an io::Result of a Result of an Option
// the four would be no plainer: each reader would match three layers.
#[derive(Clone, Copy)]
pub enum Came {
    All(usize),
    Nothing,
    Part,
    TooLong,
}

// The first n bytes, all of them where there are fewer.
pub fn start<const N: usize>(buffer: &[u8; N], n: usize) -> &[u8]
    ensures { result.now ≡ take n buffer.now }
{
    &buffer[..n.min(buffer.len())]
}

// Reads until the space is full or the input ends, and tells how many bytes came.
pub fn fill<R: Read>(input: &mut R, space: &mut [u8]) -> io::Result<usize>
    ensures within { ReadsAtMost result space.new }
    ensures bytes { IfOk result (λ n. Consumes (R.remaining input.old) (R.remaining input.new) (take n space.new)) }
    ensures end { IfOk result (λ n. n < length space.old → IsAtEnd (R.remaining input.new)) }
{
    let mut count: usize = 0;
    while count < space.len() {
        let more = input.read(&mut space[count..])?;
        if more == 0 {
            break;
        }
        count += more;
    }
    Ok(count)
}

// Reads a frame: its length in 16 bits, low byte first, then as many bytes, to the start of the space.
pub fn read_frame<R: Read>(input: &mut R, space: &mut [u8]) -> io::Result<Came>
    ensures { IfOk result (ReadsFrame (R.remaining input.old) (R.remaining input.new) space.new) }
{
    let mut head = [0u8; 2];
    let got = fill(input, &mut head)?;
    if got == 0 {
        return Ok(Came::Nothing);
    }
    if got < 2 {
        return Ok(Came::Part);
    }
    let n = length_told(&head);
    if n > space.len() {
        return Ok(Came::TooLong);
    }
    if fill(input, &mut space[..n])? < n {
        return Ok(Came::Part);
    }
    Ok(Came::All(n))
}

// The length that the first two bytes of a frame tell.
fn length_told(head: &[u8; 2]) -> usize
    ensures { result ≡ length_told head.now }
{
    u16::from_le_bytes(*head) as usize
}

// Writes what `answer` says of the first 4,096 bytes of the input.
pub fn answer_input<R: Read, W: Write, F: FnOnce(&mut [u8; 4096], &[u8]) -> usize>(
    input: &mut R,
    output: &mut W,
    answer: F,
) -> io::Result<()>
    requires { F.IsAlwaysCallable answer }
    ensures { OnOk result (IfSome (R.remaining input.old) (λ xs. Writes (F.post answer) (take 4096 xs) (W.contents output.old) (W.contents output.new))) }
{
    let mut buffer = [0u8; 4096];
    let n = fill(input, &mut buffer)?;
    let mut out = [0u8; 4096];
    let end = answer(&mut out, start(&buffer, n));
    output.write_all(start(&out, end))
}

// Writes what `answer` says of each frame of the input. Of one that is cut short, or longer than 4,096 bytes, a line is written to `errors`, and no further
// frame is read.
pub fn answer_frames<R: Read, W: Write, E: Eprint, F: Fn(&mut [u8; 4096], &[u8]) -> usize>(
    input: &mut R,
    output: &mut W,
    errors: &E,
    answer: F,
) -> io::Result<()>
    requires { F.IsAlwaysCallable answer }
    ensures { OnOk result (AnswersAll (F.post answer) (R.remaining input.old) (R.remaining input.new) (W.contents output.old) (W.contents output.new)) }
{
    let mut space = [0u8; 4096];
    for number in 0..MOST {
        match read_frame(input, &mut space)? {
            Came::All(n) => answer_frame(output, &answer, start(&space, n))?,
            Came::Nothing => return Ok(()),
            Came::Part => return eprintln!(errors; "frame {number} is cut short"),
            Came::TooLong => return eprintln!(errors; "frame {number} is longer than 4096"),
        }
    }
    Ok(())
}

fn answer_frame<W: Write, F: Fn(&mut [u8; 4096], &[u8]) -> usize>(
    output: &mut W,
    answer: &F,
    frame: &[u8],
) -> io::Result<()>
    requires { F.IsAlwaysCallable answer.now }
    ensures { OnOk result (Writes (F.post answer.now) frame.now (W.contents output.old) (W.contents output.new)) }
{
    let mut out = [0u8; 4096];
    let end = answer(&mut out, frame);
    output.write_all(start(&out, end))
}
