// The answers of `exports` under their C names: a `&[u8]` is a pointer and a length there, a `&[u8; 146]` a pointer.
#![tactic(auto)]

ghost use Rattle.std.specs.Prelude.{◌≡◌, eqb};
ghost use Rattle.steps.specs.Answers.{taken};
ghost use Rattle.sums.specs.Sum.{byte_sum};
ghost use Rattle.crate_reading.specs.Reading.{answer};
ghost use Rattle.bursts.specs.Bursts.{told, held, stage, standing, grow};
ghost use Rattle.standard_reading.specs.Block.{standard_of};
ghost use Rattle.exports.specs.Numbers.{number_of, number_told};
ghost use Rattle.exports.specs.Pick.{pick_of};

// ---- of a block

// The crate reading's refusal number; 0 where the block is accepted.
#[unsafe(no_mangle)]
pub extern "C" fn edid_refusal_number(block: &[u8]) -> u32
    ensures { result ≡ number_of (answer block.now) }
{
    exports::edid_refusal_number(block)
}

// The bytes that the crate reading took, to the end of the record or to its refusal.
#[unsafe(no_mangle)]
pub extern "C" fn edid_bytes_taken(block: &[u8]) -> usize
    ensures { result ≡ taken (answer block.now) }
{
    exports::edid_bytes_taken(block)
}

// Whether the bytes add up to zero, modulo 256; those of the empty slice do.
#[unsafe(no_mangle)]
pub extern "C" fn edid_sum_is_zero(block: &[u8]) -> bool
    ensures { result ≡ eqb (byte_sum block.now) 0 }
{
    exports::edid_sum_is_zero(block)
}

// ---- of bursts

// Takes a burst; what is told after it: the number as above, or 257 while nothing is.
#[unsafe(no_mangle)]
pub extern "C" fn edid_burst(state: &mut [u8; 146], burst: &[u8]) -> u32
    ensures { (standing state.new ≡ grow (standing state.old) burst.now)
        × (result ≡ number_told (told (stage state.new))) }
{
    exports::edid_burst(state, burst)
}

// The input ended: the number of all that came.
#[unsafe(no_mangle)]
pub extern "C" fn edid_burst_number(state: &[u8; 146]) -> u32
    ensures { result ≡ number_of (answer (held state.now)) }
{
    exports::edid_burst_number(state)
}

// And the bytes taken.
#[unsafe(no_mangle)]
pub extern "C" fn edid_burst_taken(state: &[u8; 146]) -> usize
    ensures { result ≡ taken (answer (held state.now)) }
{
    exports::edid_burst_taken(state)
}

// ---- of the timing to show

// By the standard reading and the board's limits: 0 and the numbers of the timing to show; or its refusal, 14 where no timing qualifies, 10 where
// fewer than fourteen numbers are lent, and these stay as they are.
#[unsafe(no_mangle)]
pub extern "C" fn edid_pick(
    block: &[u8],
    clock: u32,
    across: u16,
    down: u16,
    numbers: &mut [u32],
) -> u32
    ensures { (result, numbers.new) ≡ pick_of (record { clock = clock; across = record { 0 = across }; down = record { 0 = down } })
        (standard_of block.now) numbers.old }
{
    exports::edid_pick(block, clock, across, down, numbers)
}
