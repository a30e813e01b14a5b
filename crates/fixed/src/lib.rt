// A list in fixed memory: what both readings list, they list in one of these.
#![tactic(auto)]

ghost use Rattle.std.specs.Prelude.{◌≡◌};
ghost use Rattle.fixed.specs.Fixed.{push};

// An array and how many of its places are taken; past them stands a filler.
#[derive(Clone, Copy)]
pub struct Fixed<T, const N: usize> {
    pub items: [T; N],
    pub len: usize,
}

impl<T: Copy, const N: usize> Fixed<T, N> {
    // A full list stays as it is.
    #[inline(always)]
    #[tactic(auto, unfolding(crate::specs::Fixed::push))]
    pub fn push(&mut self, item: T)
        ensures { self.new ≡ push N self.old item }
    {
        if self.len < N {
            self.items[self.len] = item;
            self.len += 1;
        }
    }
}
