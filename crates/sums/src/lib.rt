// The byte sum of a slice of any length, carried in one byte that wraps.
#![tactic(auto)]

ghost use Rattle.std.specs.Prelude.{◌≡◌, ◌==◌};
ghost use Rattle.sums.specs.Sum.{byte_sum};

#[tactic(auto, using(crate::proofs::Laws::total_step))]
pub fn byte_sum(s: &[u8]) -> u8
    ensures { result ≡ byte_sum s.now }
{
    let mut sum: u8 = 0;
    for b in s {
        sum = sum.wrapping_add(*b);
    }
    sum
}

pub fn sum_is_zero(s: &[u8]) -> bool
    ensures { result ≡ (byte_sum s.now == 0) }
{
    byte_sum(s) == 0
}
