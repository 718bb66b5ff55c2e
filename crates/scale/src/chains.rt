// The kinds of scale whose degrees form a chain from 0 to k. They differ only in their norm: product and residuum.
ghost use Rattle.std.specs.Prelude.{◌≡◌, ℕ, ◌+◌, ◌-◌, ◌≤◌, min, max, nat_le};
ghost use Rattle.scale.specs.Kinds.{chain, luk, godel};
ghost use Rattle.scale.specs.Made.{Made};
ghost use Rattle.scale.specs.Norms.{NormLaws};
ghost use Rattle.std.proofs.Common.{rules};

use super::size::Size;
use super::{Refusal, Scale};
use std::marker::PhantomData;

// A t-norm: how degrees of the chain from 0 to k multiply, with the residuum that goes with the product. It stays within this
// crate.
pub trait Norm {
    ghost product: { ℕ → ℕ → ℕ → ℕ };

    ghost residuum: { ℕ → ℕ → ℕ → ℕ };

    fn product(k: Size<63>, a: u8, b: u8) -> u8
        requires left { a ≤ k.value }
        requires right { b ≤ k.value }
        ensures { result ≡ product k.value a b };

    fn residuum(k: Size<63>, a: u8, b: u8) -> u8
        requires left { a ≤ k.value }
        requires right { b ≤ k.value }
        ensures { result ≡ residuum k.value a b };

    ghost lawful: { (k : ℕ) → NormLaws k (product k) (residuum k) };
}

// Łukasiewicz: shortfalls from the top add up.
#[derive(Clone, Copy)]
pub struct Lukasiewicz;

impl Norm for Lukasiewicz {
    ghost product = { λ k. (luk k).product };

    ghost residuum = { λ k. (luk k).residuum };

    ghost lawful = { Prim.search rules };

    fn product(k: Size<63>, a: u8, b: u8) -> u8 {
        (a + b).saturating_sub(k.value)
    }

    fn residuum(k: Size<63>, a: u8, b: u8) -> u8 {
        k.value.min(k.value - a + b)
    }
}

// Gödel: the weakest counts, so the product is the minimum.
#[derive(Clone, Copy)]
pub struct Minimum;

impl Norm for Minimum {
    ghost product = { λ k. (godel k).product };

    ghost residuum = { λ k. (godel k).residuum };

    ghost lawful = { Prim.search rules };

    fn product(_k: Size<63>, a: u8, b: u8) -> u8 {
        a.min(b)
    }

    fn residuum(k: Size<63>, a: u8, b: u8) -> u8 {
        if a <= b { k.value } else { b }
    }
}

// The degrees 0 to k, ordered as numbers, under a norm.
#[derive(Clone, Copy)]
pub struct Chain<N: Norm> {
    k: Size<63>,
    norm: PhantomData<N>,
}

// A Luk of size k means `luk k`, and a Godel `godel k`.
pub type Luk = Chain<Lukasiewicz>;

pub type Godel = Chain<Minimum>;

impl<N: Norm> Chain<N> {
    // The degrees 0 to k, for a k from 1 to 63.
    pub fn new(k: u8) -> Result<Chain<N>, Refusal>
        ensures { Made (λ s. s.k.value) 63 k result }
    {
        Ok(Chain {
            k: Size::try_from(k)?,
            norm: PhantomData,
        })
    }

    fn clip(&self, a: u8) -> u8
        ensures { result ≡ min a self.now.k.value }
    {
        a.min(self.k.value)
    }
}

impl<N: Norm> Scale for Chain<N> {
    ghost meaning = { λ s. chain s.k.value (N.product s.k.value) (N.residuum s.k.value) };

    ghost lawful = { λ s p. Prim.search (rules, N.lawful s.k.value) };

    fn levels(&self) -> u8 {
        self.k.value + 1
    }

    fn height(&self) -> u8 {
        self.k.value
    }

    fn below(&self, a: u8, b: u8) -> bool {
        self.clip(a) <= self.clip(b)
    }

    fn join(&self, a: u8, b: u8) -> u8 {
        self.clip(a.max(b))
    }

    fn product(&self, a: u8, b: u8) -> u8 {
        N::product(self.k, self.clip(a), self.clip(b))
    }

    fn residuum(&self, a: u8, b: u8) -> u8 {
        N::residuum(self.k, self.clip(a), self.clip(b))
    }

    fn lack(&self, a: u8) -> u8 {
        self.k.value.saturating_sub(a)
    }

    fn rank(&self, a: u8) -> u8 {
        self.clip(a)
    }
}
