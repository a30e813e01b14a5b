// A record of the panel register from its short form to its long one and back. Blocks are carried as bytes and not judged. A long record without an
// extension is the short one and 128 zero bytes, so what is carried is carried whole.
#![tactic(auto)]

ghost use Rattle.std.specs.Prelude.{◌≡◌};
ghost use Rattle.register.specs.Register.{all_zero, step_up, step_down, into};
ghost use Rattle.register.specs.Refusals.{refusal_number, told};

// Why a record is not stepped: it or the output has not its length, it has an extension, or a byte is none that may stand there.
#[derive(Clone, Copy, Debug, PartialEq, Eq)]
pub enum StepRefusal {
    WrongLength,
    HasExtension,
    WrongByte,
}

impl StepRefusal {
    // The number by which it is told.
    pub fn number(self) -> u8
        ensures { result ≡ refusal_number self }
    {
        match self {
            StepRefusal::WrongLength => 15,
            StepRefusal::HasExtension => 16,
            StepRefusal::WrongByte => 17,
        }
    }
}

// Whether every byte is 0: their digits are gathered, and no byte is a branch.
fn all_zero(s: &[u8]) -> bool
    ensures { result ≡ all_zero s.now }
{
    let mut seen: u8 = 0;
    for b in s {
        seen |= *b;
    }
    seen == 0
}

// A short record to a long one. A refusal leaves the output as it was.
pub fn step_up(source: &[u8], output: &mut [u8]) -> Result<(), StepRefusal>
    ensures { (told result, output.new) ≡ into 264 output.old (step_up source.now) }
{
    if output.len() != 264 {
        return Err(StepRefusal::WrongLength);
    }
    if source.len() != 136 {
        return Err(StepRefusal::WrongLength);
    }
    if !all_zero(&source[4..8]) {
        return Err(StepRefusal::WrongByte);
    }
    output[..136].copy_from_slice(source);
    output[136..].copy_from_slice(&[0; 128]);
    Ok(())
}

// A long record to a short one, in the same way.
pub fn step_down(source: &[u8], output: &mut [u8]) -> Result<(), StepRefusal>
    ensures { (told result, output.new) ≡ into 136 output.old (step_down source.now) }
{
    if output.len() != 136 {
        return Err(StepRefusal::WrongLength);
    }
    if source.len() != 264 {
        return Err(StepRefusal::WrongLength);
    }
    let count = source[4];
    if count > 1 {
        return Err(StepRefusal::WrongByte);
    }
    if !all_zero(&source[5..8]) {
        return Err(StepRefusal::WrongByte);
    }
    if count == 1 {
        return Err(StepRefusal::HasExtension);
    }
    if !all_zero(&source[136..264]) {
        return Err(StepRefusal::WrongByte);
    }
    output.copy_from_slice(&source[..136]);
    Ok(())
}
