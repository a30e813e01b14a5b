// A cursor over lent bytes: each read gives a value and moves the cursor on, or gives a refusal with its place.
#![tactic(auto)]

ghost use Rattle.steps.specs.Leaves.{byte, two, four, word, long};
ghost use Rattle.steps.specs.Took.{Took};

#[derive(Clone, Copy)]
pub struct Cursor<'a> {
    pub bytes: &'a [u8],
    pub at: usize,
}

// `number` says why, `at` where. A number and no enum: the definitions refuse by number (`refuse 5`), theorems bound it (`refusal_2_to_9`), and the state that C
// lends to `bursts` may hold any.
#[derive(Clone, Copy, Debug, PartialEq, Eq)]
pub struct Refusal {
    pub number: u8,
    pub at: usize,
}

// A run of bytes of the input, by its start and its length.
#[derive(Clone, Copy, Debug, PartialEq, Eq)]
pub struct Span {
    pub start: usize,
    pub len: usize,
}

impl Cursor<'_> {
    pub fn byte(&mut self) -> Result<u8, Refusal>
        ensures { Took byte self.old result self.new }
    {
        let at = self.at;
        if at < self.bytes.len() {
            self.at = at + 1;
            Ok(self.bytes[at])
        } else {
            Err(Refusal { number: 1, at })
        }
    }

    pub fn two(&mut self) -> Result<(u8, u8), Refusal>
        ensures { Took two self.old result self.new }
    {
        let first = self.byte()?;
        let second = self.byte()?;
        Ok((first, second))
    }

    pub fn four(&mut self) -> Result<(u8, u8, u8, u8), Refusal>
        ensures { Took four self.old result self.new }
    {
        let (a, b) = self.two()?;
        let (x, y) = self.two()?;
        Ok((a, b, x, y))
    }

    pub fn word(&mut self) -> Result<u16, Refusal>
        ensures { Took word self.old result self.new }
    {
        let (low, high) = self.two()?;
        Ok(bits::word(low, high))
    }

    pub fn long(&mut self) -> Result<u32, Refusal>
        ensures { Took long self.old result self.new }
    {
        let low = self.word()?;
        let high = self.word()?;
        Ok(bits::long(low, high))
    }
}
