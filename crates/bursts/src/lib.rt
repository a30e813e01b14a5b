// A reader of a block that arrives in bursts. Its state is 146 bytes that the caller lends, all zero at the start: 142 for the bytes that
// came, since no answer takes more; how many of them came; and how far the reading of them came, or its end once that is known.
#![tactic(auto)]

ghost use Rattle.std.specs.Prelude.{◌-◌, ◌<◌, ◌≤◌, min, ◌≡◌, ◌++◌, length, take};
ghost use Rattle.steps.specs.Leaves.{Beside, ended};
ghost use Rattle.crate_record.specs.Filler.{blank};
ghost use Rattle.crate_reading.specs.Reading.{answer};
ghost use Rattle.crate_end.specs.Ends.{end_of, went};
ghost use Rattle.crate_end.specs.Answers.{of_came};
ghost use Rattle.crate_end.specs.Onward.{Small};
ghost use Rattle.bursts.specs.Bursts.{told, held, stage_of, stage, standing, settled, grow};

use crate_end::Came;
use crate_record::Reading;
use steps::Refusal;

// What is told of the answer: nothing while bytes are wanted; or the place after the record; or the refusal.
pub type Report = Option<Result<usize, Refusal>>;

// ---- the bytes that came

// How many bytes a state says that came: there are no more than 142.
fn count(n: u8) -> usize
    ensures { result ≡ min n 142 }
{
    usize::from(n).min(142)
}

// As much of the burst as there is room for, behind the bytes that came.
fn hold(state: &mut [u8; 146], burst: &[u8])
    ensures { (held state.new ≡ take 142 (held state.old ++ burst.now))
        × (stage state.new ≡ stage state.old) }
{
    let from = count(state[142]);
    let many = burst.len().min(142 - from);
    // A loop, and no copy of a slice: that would call a function from outside of the archive for C.
    for i in 0..many {
        state[from + i] = burst[i];
    }
    state[142] = (from + many) as u8;
}

// The bytes that came.
pub fn held(state: &[u8; 146]) -> &[u8]
    ensures { result.now ≡ held state.now }
{
    &state[..count(state[142])]
}

// ---- how far the reading came: in three bytes, by numbers, since C lends the state as bytes (`edid_burst`)

fn report_of(sort: u8, place: u8, number: u8) -> Report
    ensures { result ≡ told (stage_of sort place number) }
{
    if sort < 6 {
        return None;
    }
    let at = usize::from(place);
    if sort == 6 {
        return Some(Ok(at));
    }
    Some(Err(Refusal { number, at }))
}

// What was told so far.
pub fn reported(state: &[u8; 146]) -> Report
    ensures { result ≡ told (stage state.now) }
{
    report_of(state[143], state[144], state[145])
}

fn put(state: &mut [u8; 146], sort: u8, place: u8, number: u8)
    ensures { (held state.new ≡ held state.old) × (stage state.new ≡ stage_of sort place number) }
{
    state[143] = sort;
    state[144] = place;
    state[145] = number;
}

// Out of data is no end while more can come.
fn note(state: &mut [u8; 146], came: Came)
    requires { Small 255 (of_came came) }
    ensures { (held state.new ≡ held state.old) × (stage state.new ≡ settled (of_came came)) }
{
    match came.end {
        Ok(n) => put(state, 6, n as u8, 0),
        Err(f) => {
            if f.number == 1 {
                put(state, came.piece as u8, came.at as u8, 0);
            } else {
                put(state, 7, f.at as u8, f.number);
            }
        }
    }
}

fn go_on(piece: u8, at: u8, s: &[u8]) -> Came
    requires { (piece < 6) × (length s.now ≤ 142) }
    ensures { (of_came result ≡ went (5 - piece) piece s.now at) × Small 255 (of_came result) }
{
    crate_end::go_on(usize::from(piece), usize::from(at), s)
}

// ---- the calls

// A burst of any length, also of none; what is told after it.
pub fn take(state: &mut [u8; 146], burst: &[u8]) -> Report
    ensures { (standing state.new ≡ grow (standing state.old) burst.now)
        × (result ≡ told (stage state.new)) }
{
    hold(state, burst);
    if state[143] >= 6 {
        return reported(state);
    }
    let came = go_on(state[143], state[144], held(state));
    note(state, came);
    reported(state)
}

// The input ended: how the reading of all that came ends.
pub fn end(state: &[u8; 146]) -> Result<usize, Refusal>
    ensures { ended tt result ≡ end_of (answer (held state.now)) }
{
    crate_end::end_of(held(state))
}

// The same with the record.
pub fn finish(state: &[u8; 146]) -> Reading
    ensures { Beside blank result.edid result.end (answer (held state.now)) }
{
    crate_reading::read(held(state))
}
