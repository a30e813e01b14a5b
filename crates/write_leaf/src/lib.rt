// What the writer's leaves have in common. A leaf answers with the bytes of a value and with `fits`: whether any bytes at all are read as it.
// An Option would promise less: the clause `made` of `Writes` says which bytes they are also where `fits` is false.
#![tactic(auto)]

ghost use Rattle.std.specs.Prelude.{◌≡◌, ◌&&◌, ◌≤◌};
ghost use Rattle.write_leaf.specs.Bytes.{digit};

#[derive(Clone, Copy)]
pub struct OneByte {
    pub fits: bool,
    pub byte: u8,
}

#[derive(Clone, Copy)]
pub struct TwoBytes {
    pub fits: bool,
    pub first: u8,
    pub second: u8,
}

// N bytes, as the 18 of a slot.
#[derive(Drop)]
pub struct Leaf<const N: usize> {
    pub fits: bool,
    pub bytes: [u8; N],
}

// 1 where the test holds: a sum of digits counts how many do, in the place of a chain of branches.
pub fn digit(b: bool) -> u8
    ensures { (result ≡ digit b) × (result ≤ 1) }
{
    if b { 1 } else { 0 }
}

pub fn both(a: bool, b: bool) -> bool
    ensures { result ≡ (a && b) }
{
    a && b
}
