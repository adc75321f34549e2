// Sets of small numbers as masks: identifiers in 32 bits, templates in 64.
#![tactic(auto)]

ghost use Rattle.std.specs.Prelude.{◌≡◌, ℕ, ◌+◌, ◌%◌, ◌^◌, ◌<◌, ◌≤◌, min};
ghost use Rattle.std.proofs.Common.{rules};
ghost use Rattle.lists.specs.Numbers.{lowest};
ghost use Rattle.mask.specs.Mask.{has, without};
ghost use Rattle.mask.specs.Sets.{plus_below, shifted};

// A number as a set: item i is in it where its digit i is 1. No item stands at or past the width, which has at most 64.
pub trait Mask: Copy {
    const WIDTH: u32;

    ghost WIDTH: { ℕ };

    // The number itself.
    ghost bits: { Self → ℕ };

    fn widen(self) -> u64
        ensures value { result ≡ bits self }
        ensures fits { result < 2 ^ WIDTH };

    // The items below the width.
    fn narrow(wide: u64) -> Self
        ensures { bits result ≡ wide % 2 ^ WIDTH };

    ghost narrow_enough: { WIDTH ≤ 64 };

    // Whether item i is in the mask.
    final fn contains(self, i: u32) -> bool
        ensures { result ≡ has i (bits self) }
    {
        let wide = self.widen();
        if Self::WIDTH <= i {
            return false;
        }
        (wide >> i) % 2 == 1
    }

    // The items, and i where it is below the width.
    final fn insert(self, i: u32) -> Self
        ensures { bits result ≡ plus_below WIDTH (bits self) i }
    {
        if Self::WIDTH <= i {
            return self;
        }
        Self::narrow(self.widen() | 1 << i)
    }

    // The items, each n higher; those that come to stand past the width are lost. Document 02, U10, asks for it.
    final fn shift(self, n: u32) -> Self
        ensures { bits result ≡ shifted n (bits self) % 2 ^ WIDTH }
    {
        if Self::WIDTH <= n {
            return Self::narrow(0);
        }
        let higher = (self.widen() as u128) << n;
        Self::narrow((higher % (1 << 64)) as u64)
    }
}

impl Mask for u32 {
    const WIDTH: u32 = 32;

    ghost WIDTH = { 32 };

    ghost bits = { λ m. m };

    ghost narrow_enough = { Prim.search rules };

    fn widen(self) -> u64 {
        u64::from(self)
    }

    fn narrow(wide: u64) -> u32 {
        (wide % (1 << 32)) as u32
    }
}

impl Mask for u64 {
    const WIDTH: u32 = 64;

    ghost WIDTH = { 64 };

    ghost bits = { λ m. m };

    ghost narrow_enough = { Prim.search rules };

    fn widen(self) -> u64 {
        self
    }

    fn narrow(wide: u64) -> u64 {
        wide
    }
}

// The items of a that are not in b.
pub fn difference(a: u32, b: u32) -> u32
    ensures { result ≡ without a b }
{
    a - (a & b)
}

// The lowest item of m, and 32 where m has none: the machine's own count, which a least of two takes as it is.
pub fn lowest_item(m: u32) -> u32
    ensures { result ≡ lowest 32 (λ i. has i m) }
{
    m.trailing_zeros()
}

// How many masks there are over m identifiers; a mask has room for 32.
pub fn mask_count(m: u32) -> u64
    ensures { result ≡ 2 ^ min m 32 }
{
    1u64 << m.min(32)
}

// The mask of all of m identifiers: the greatest.
pub fn full_mask(m: u32) -> u32
    ensures { result + 1 ≡ 2 ^ min m 32 }
{
    (mask_count(m) - 1) as u32
}
