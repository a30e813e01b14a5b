// What both records have in common: version, the sync of an analog input, the established timings.
#![tactic(auto)]

ghost use Rattle.std.specs.Prelude.{◌≡◌};
ghost use Rattle.shared_record.specs.Established.{established_timings, flags_on};

use fixed::Fixed;

#[derive(Clone, Copy)]
pub struct Version {
    pub version: u8,
    pub revision: u8,
}

// The kinds of sync that an analog input takes.
#[derive(Clone, Copy)]
pub struct SupportedSync {
    pub serrated: bool,
    pub green: bool,
    pub composite: bool,
    pub separate: bool,
}

// The flags that are set, by their numbers from 0 to 16.
pub type EstablishedTimings = Fixed<u8, 17>;

// The flags that are set: digit k of `low` is that of number k, digit 7 of `last` that of number 16.
pub fn established_of(low: u16, last: u8) -> EstablishedTimings
    ensures { result ≡ established_timings (flags_on low last) }
{
    let mut flags = Fixed {
        items: [0u8; 17],
        len: 0,
    };
    for k in 0..16 {
        if bits::is_set16(low, k) {
            flags.push(k);
        }
    }
    if bits::is_set(last, 7) {
        flags.push(16);
    }
    flags
}
