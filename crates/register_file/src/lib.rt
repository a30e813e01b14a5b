// A register's file from standard input to standard output, from one form to the other. A batch of records is read, stepped and written at a time, so
// the memory is the same for a file of any length.
#![tactic(auto)]

ghost use Rattle.std.specs.Prelude.{◌+◌, ◌*◌, ◌<◌, ◌≤◌, ◌≡◌, ℕ, true, false, length, take};
ghost use Rattle.std.specs.Io.KnownBytes.{Consumes, IsAtEnd};
ghost use Rattle.register.specs.Register.{into};
ghost use Rattle.register.specs.Refusals.{told};
ghost use Rattle.register_file.specs.File.{step_of, from_of, to_of, converted};
ghost use Rattle.register_file.specs.Run.{Ends};

use register::StepRefusal;
use std::io::{Eprint, Read, Write};
use std::os::fd::AsFd;

// The records of a batch: as many as a buffer of 65,536 bytes has room for in their longer form.
const BATCH: usize = 248;

// A proved loop has to end, and nothing says that the input does: it counts to a number of batches that no file has.
const MOST: u64 = 72057594037927936;

// The system's number for a file that is not open, EBADF.
const NOT_OPEN: i32 = 9;

// From the short form to the long one, or back. A value and no trait: the theorems of specs (`there_and_back`) go from a way to the other one.
#[derive(Clone, Copy)]
pub enum Way {
    Up,
    Down,
}

// The records stepped, the bytes that they are now, and how the next one is refused, if it is.
#[derive(Clone, Copy)]
struct Batch {
    records: usize,
    written: usize,
    outcome: Result<(), StepRefusal>,
}

// What a batch, or the whole file, came to: there may be more; it is whole; the index of a refused record, and why; the index of the record at which a
// read failed; the index of the first record of a batch whose write failed. No Result: five outcomes, of which two are no error.
#[derive(Clone, Copy)]
enum End {
    More,
    Whole,
    Refused(u64, StepRefusal),
    ReadFailed(u64),
    WriteFailed(u64),
}

// The bytes that came, and whether a read failed then. No Result: the count is told either way.
#[derive(Clone, Copy)]
struct Filled {
    count: usize,
    failed: bool,
}

// ---- the steps

// The length of a record to step.
fn from(way: Way) -> usize
    ensures { (result ≡ from_of way) × (1 ≤ result) × (result ≤ 264) }
{
    match way {
        Way::Up => 136,
        Way::Down => 264,
    }
}

// The length of a record stepped.
fn to(way: Way) -> usize
    ensures { (result ≡ to_of way) × (result ≤ 264) }
{
    match way {
        Way::Up => 264,
        Way::Down => 136,
    }
}

fn step(way: Way, source: &[u8], output: &mut [u8]) -> Result<(), StepRefusal>
    ensures { (told result, output.new) ≡ into (to_of way) output.old (step_of way source.now) }
{
    match way {
        Way::Up => register::step_up(source, output),
        Way::Down => register::step_down(source, output),
    }
}

// Steps a batch, one record after the other.
fn step_all(way: Way, source: &[u8], output: &mut [u8]) -> Batch
    requires { length output.old ≡ 65536 }
    ensures { (result.records ≤ 248) × (result.written ≤ 65536) × (record { bytes = take result.written output.new; count = result.records; number = told result.outcome } ≡ converted way 248 source.now) }
{
    let from = from(way);
    let to = to(way);
    let mut at: usize = 0;
    let mut end: usize = 0;
    for i in 0..BATCH {
        if at == source.len() {
            return Batch {
                records: i,
                written: end,
                outcome: Ok(()),
            };
        }
        let next = (at + from).min(source.len());
        let outcome = step(way, &source[at..next], &mut output[end..end + to]);
        if outcome.is_err() {
            return Batch {
                records: i,
                written: end,
                outcome,
            };
        }
        at = next;
        end += to;
    }
    Batch {
        records: BATCH,
        written: end,
        outcome: Ok(()),
    }
}

// ---- input and output

// Reads until the space is full, the input ends or a read fails. A `while`: a turn goes on by as many bytes as came.
fn fill<R: Read>(input: &mut R, space: &mut [u8]) -> Filled
    ensures within { (result.count ≤ length space.old) × (length space.new ≡ length space.old) }
    ensures bytes { Consumes (R.remaining input.old) (R.remaining input.new) (take result.count space.new) }
    ensures end { result.failed ≡ false → result.count < length space.old → IsAtEnd (R.remaining input.new) }
{
    let mut count: usize = 0;
    while count < space.len() {
        match input.read(&mut space[count..]) {
            Ok(0) => {
                return Filled {
                    count,
                    failed: false,
                };
            }
            Ok(more) => count += more,
            Err(_) => {
                return Filled {
                    count,
                    failed: true,
                };
            }
        }
    }
    Filled {
        count,
        failed: false,
    }
}

// How much of what came is stepped: all of it, but not a record that a failed read cut short.
fn end_of(came: Filled, from: usize) -> usize
    requires { 1 ≤ from }
    ensures bound { result ≤ came.count }
    ensures whole { came.failed ≡ false → result ≡ came.count }
    ensures cut { came.count < result + from }
    ensures records { came.failed ≡ true → (n : ℕ) × (result ≡ n * from) }
{
    if came.failed {
        came.count - came.count % from
    } else {
        came.count
    }
}

// Reads a batch, steps it and writes what it is now. Where the write fails, the index told is that of the batch's first record.
fn convert_batch<R: Read, W: Write>(
    input: &mut R,
    target: &mut W,
    way: Way,
    index: u64,
    source: &mut [u8],
    output: &mut [u8],
) -> End
    requires { (index < 17870283321406128128) × (length source.old ≡ 65536) × (length output.old ≡ 65536) }
    ensures { Ends way index 248 (R.remaining input.old) (R.remaining input.new) (W.contents target.old) (W.contents target.new) result }
{
    let from = from(way);
    let size = BATCH * from;
    let came = fill(input, &mut source[0..size]);
    let end = end_of(came, from);
    let batch = step_all(way, &source[0..end], output);
    let written = batch.written;
    if target.write_all(&output[0..written]).is_err() {
        return End::WriteFailed(index);
    }
    let next = index + batch.records as u64;
    if let Err(refusal) = batch.outcome {
        return End::Refused(next, refusal);
    }
    if came.failed {
        return End::ReadFailed(next);
    }
    if came.count < size {
        return End::Whole;
    }
    End::More
}

// The whole file.
fn convert_all<R: Read, W: Write>(input: &mut R, target: &mut W, way: Way) -> End
    ensures { (n : ℕ) × Ends way 0 n (R.remaining input.old) (R.remaining input.new) (W.contents target.old) (W.contents target.new) result }
{
    let mut source = [0u8; 65536];
    let mut output = [0u8; 65536];
    for number in 0..MOST {
        let index = number * BATCH as u64;
        match convert_batch(input, target, way, index, &mut source, &mut output) {
            End::More => {}
            end => return end,
        }
    }
    End::More
}

// A line where not all went well. Where it cannot be written there is nobody to tell.
fn tell<E: Eprint>(errors: &E, end: End) {
    let _ = match end {
        End::More | End::Whole => Ok(()),
        End::Refused(index, refusal) => {
            let number = refusal.number();
            eprintln!(errors; "{index} {number}")
        }
        End::ReadFailed(index) => eprintln!(errors; "{index} read failed"),
        End::WriteFailed(index) => eprintln!(errors; "{index} write failed"),
    };
}

// The whole file, from standard input to standard output. What is read and written there no contract can say, and nothing comes back, so there is none:
// that of `convert_all` says it of every reader and writer. A standard output that is not open is told too.
pub fn convert(rt: &HostRuntime, way: Way) {
    let end = convert_all(&mut rt.stdin(), &mut rt.stdout(), way);
    tell(rt, end);
    match rt.stdout().as_fd().try_clone_to_owned() {
        Err(e) if e.raw_os_error() == Some(NOT_OPEN) => {
            let _ = eprintln!(rt; "close failed");
        }
        _ => {}
    }
}
