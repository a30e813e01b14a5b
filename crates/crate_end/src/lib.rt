// How the crate reading ends, without its record: header and slots decide it, so all else is passed over. It can go on from any piece.
#![tactic(auto)]

ghost use Rattle.std.specs.Prelude.{suc, ◌-◌, ◌≡◌, None};
ghost use Rattle.steps.specs.Steps.{run};
ghost use Rattle.steps.specs.Leaves.{ended};
ghost use Rattle.steps.specs.Took.{Took};
ghost use Rattle.crate_text.specs.Text.{skip};
ghost use Rattle.crate_slots.specs.Slots.{said_by, said_later};
ghost use Rattle.crate_reading.specs.Reading.{answer};
ghost use Rattle.crate_end.specs.Ends.{end_of, bare, piece, went};
ghost use Rattle.crate_end.specs.Answers.{of_came};

use crate_descriptors::Slot;
use steps::{Cursor, Refusal};

// How far a reading came: the piece that is not whole, 5 where all are; where that begins; and how it ended.
#[derive(Clone, Copy)]
pub struct Came {
    pub piece: usize,
    pub at: usize,
    pub end: Result<usize, Refusal>,
}

// Twelve bytes of pairs, and the closing.
fn pass_six(c: &mut Cursor) -> Result<(), Refusal>
    ensures { Took (bare (said_by Slot.Six)) c.old result c.new }
{
    crate_text::take_skip(c, 12)?;
    crate_descriptors::take_closing(c, 0)?;
    Ok(())
}

fn pass_descriptor(c: &mut Cursor) -> Result<(), Refusal>
    ensures { Took (bare (said_later None)) c.old result c.new }
{
    match crate_descriptors::take_descriptor(c)? {
        Slot::Nothing | Slot::Described(_) | Slot::White(_) => Ok(()),
        Slot::Six => pass_six(c),
    }
}

fn pass_slot(i: usize, c: &mut Cursor) -> Result<(), Refusal>
    ensures { Took (piece (suc i)) c.old result c.new }
{
    if let Some(_) = crate_detailed::take_detailed(c)? {
        return Ok(());
    }
    if i == 0 {
        return Err(Refusal {
            number: 3,
            at: c.at,
        });
    }
    pass_descriptor(c)
}

fn pass_front(c: &mut Cursor) -> Result<(), Refusal>
    ensures { Took (piece 0) c.old result c.new }
{
    crate_head::take_header(c)?;
    crate_text::take_skip(c, 46)
}

fn pass_piece(i: usize, c: &mut Cursor) -> Result<(), Refusal>
    ensures { Took (piece i) c.old result c.new }
{
    if i > 0 {
        pass_slot(i - 1, c)
    } else {
        pass_front(c)
    }
}

// The extension count, and the place behind it.
fn last_end(c: Cursor) -> Result<usize, Refusal>
    ensures { ended tt result ≡ run (skip 1) c.entry.bytes.now c.entry.at }
{
    let mut c = c;
    crate_text::take_skip(&mut c, 1)?;
    Ok(c.at)
}

// From the piece `piece`, which begins at `at`.
pub fn go_on(piece: usize, at: usize, s: &[u8]) -> Came
    ensures { of_came result ≡ went (5 - piece) piece s.now at }
{
    let mut c = Cursor { bytes: s, at };
    for i in piece..5 {
        let at = c.at;
        if let Err(f) = pass_piece(i, &mut c) {
            return Came {
                piece: i,
                at,
                end: Err(f),
            };
        }
    }
    Came {
        piece: piece.max(5),
        at: c.at,
        end: last_end(c),
    }
}

pub fn end_of(s: &[u8]) -> Result<usize, Refusal>
    ensures { ended tt result ≡ end_of (answer s.now) }
{
    go_on(0, 0, s).end
}
