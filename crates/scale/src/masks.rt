// The kind of scale whose degrees are sets of hours: hour i is the bit worth 2 ^ i.
ghost use Rattle.std.specs.Prelude.{◌≡◌, ◌-◌, ◌^◌, ◌≤◌, min, refl};
ghost use Rattle.std.proofs.Common.{◌∙◌, arith, pow_pos, pow_mono};
ghost use Rattle.scale.specs.Kinds.{hours};
ghost use Rattle.scale.specs.Made.{Made};
ghost use Rattle.std.proofs.Math.Pow.{ones_sub-lt};
ghost use Rattle.std.proofs.lemmas.Nat.{and_assoc, and_comm, or_lt, ones-le};
ghost use Rattle.std.specs.Int.Bits.{and_self, and_lt};
ghost use Rattle.std.proofs.lemmas.Bool.{eqb-true, eq-eqb};
ghost use Rattle.scale.specs.Sets;

use super::size::Size;
use super::{Refusal, Scale};

#[derive(Clone, Copy)]
pub struct Hours {
    count: Size<6>,
}

impl Hours {
    // The sets of the hours 0 to count - 1, for a count from 1 to 6.
    pub fn new(count: u8) -> Result<Hours, Refusal>
        ensures { Made (λ s. s.count.value) 6 count result }
    {
        Ok(Hours {
            count: Size::try_from(count)?,
        })
    }

    // The set of all hours.
    fn all(&self) -> u8
        ensures { result ≡ 2 ^ self.now.count.value - 1 }
    {
        (1 << self.count.value) - 1
    }

    fn clip(&self, a: u8) -> u8
        ensures { result ≡ min a (2 ^ self.now.count.value - 1) }
    {
        a.min(self.all())
    }
}

impl Scale for Hours {
    ghost meaning = { λ s. hours s.count.value };

    ghost lawful = { λ s p.
        let h = s.count.value in
        record {
          levels_least = pow_mono s.count.least;
          levels_most = pow_mono s.count.most;
          height_bound = Sets.below_pow h;
          join_degree = λ a b p q. or_lt h a b p q;
          product_degree = λ a b p q. and_lt h a b p q;
          residuum_degree = λ a b p q. or_lt h b (2 ^ h - 1 - a) q (ones_sub-lt h a);
          lack_degree = λ a p. ones_sub-lt h a;
          below_refl = λ a p. eq-eqb _ _ (and_self a);
          below_antisym = λ a b p q x y. Sets.antisym a b (eqb-true _ _ x) (eqb-true _ _ y);
          below_trans = λ a b c p q r x y. eq-eqb _ _ (Sets.trans a b c (eqb-true _ _ x) (eqb-true _ _ y));
          bottom_least = λ a p. refl;
          top_greatest = λ a p. eq-eqb _ _ (Sets.in_all h a p);
          join_left = λ a b p q. eq-eqb _ _ (Sets.or_left a b);
          join_right = λ a b p q. eq-eqb _ _ (Sets.or_right a b);
          join_least = λ a b c p q r x y. eq-eqb _ _ (Sets.or_least a b c (eqb-true _ _ x) (eqb-true _ _ y));
          product_comm = λ a b p q. and_comm a b;
          product_assoc = λ a b c p q r. and_assoc c a b;
          product_top = λ a p. and_comm (2 ^ h - 1) a ∙ Sets.in_all h a p;
          residuation = λ a b c p q r. Sets.same_test _ _ _ _ (Sets.to_residuum h a b c p r) (Sets.from_residuum h a b c p);
          lack_antitone = λ a b p q x. eq-eqb _ _ (Sets.lack_turns h a b p q (eqb-true _ _ x));
          lack_bottom = omega arith;
          lack_top = omega arith;
          rank_bottom = omega (arith, ones-le 0 0 (pow_pos 0));
          rank_most = λ a p. ones-le h a p;
          rank_strict = λ a b p q x ne. Sets.fewer a b (eqb-true _ _ x) ne;
        } };

    fn levels(&self) -> u8 {
        self.all() + 1
    }

    fn height(&self) -> u8 {
        self.count.value
    }

    fn below(&self, a: u8, b: u8) -> bool {
        let a = self.clip(a);
        a & self.clip(b) == a
    }

    fn join(&self, a: u8, b: u8) -> u8 {
        self.clip(a) | self.clip(b)
    }

    fn product(&self, a: u8, b: u8) -> u8 {
        self.clip(a) & self.clip(b)
    }

    fn residuum(&self, a: u8, b: u8) -> u8 {
        self.clip(b) | self.lack(a)
    }

    fn lack(&self, a: u8) -> u8 {
        self.all() - self.clip(a)
    }

    fn rank(&self, a: u8) -> u8 {
        self.clip(a).count_ones() as u8
    }
}
