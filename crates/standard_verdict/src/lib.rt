// The standard reading's verdict on a block before its slots are looked at: refusals 7, 2, 8 and 9, in this order.
#![tactic(auto)]

ghost use Rattle.std.specs.Prelude.{◌≡◌, length};
ghost use Rattle.standard_verdict.specs.Verdict.{refused_at, must, is_header, before_slots};

use standard_record::Verdict;
use steps::Refusal;

fn header_in(s: &[u8]) -> bool
    requires { length s.now ≡ 128 }
    ensures { result ≡ is_header s.now }
{
    let low = bits::long(bits::word(s[0], s[1]), bits::word(s[2], s[3]));
    let high = bits::long(bits::word(s[4], s[5]), bits::word(s[6], s[7]));
    low == 0xffff_ff00 && high == 0x00ff_ffff
}

pub fn refused_at(number: u8, at: usize) -> Verdict
    ensures { result ≡ refused_at number at }
{
    Err(Refusal { number, at })
}

// Refused where the test fails.
pub fn must(holds: bool, number: u8, at: usize) -> Verdict
    ensures { result ≡ must holds number at }
{
    if holds {
        Ok(())
    } else {
        refused_at(number, at)
    }
}

#[tactic(auto, unfolding(crate::specs::Verdict::before_slots))]
pub fn before_slots(s: &[u8]) -> Verdict
    ensures { result ≡ before_slots s.now }
{
    must(s.len() == 128, 7, 0)?;
    must(header_in(s), 2, 0)?;
    must(sums::sum_is_zero(s), 8, 127)?;
    must(s[18] == 1, 9, 18)
}
