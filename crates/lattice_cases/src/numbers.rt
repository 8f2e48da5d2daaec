//! The numbers below n, where a join is the greater number: a small world for listings of joins.

ghost use Rattle.std.specs.Prelude.{◌≡◌, ℕ, ◌<◌, max};
ghost use Rattle.std.proofs.Common.{arith};

use hs_lattice::JoinWorld;
use std::alloc::{AllocError, Global};

/// The numbers below n.
#[derive(Drop)]
pub struct Below {
    pub n: u16,
}

impl JoinWorld for Below {
    type Item = u16;

    ghost Meaning = { ℕ };

    ghost meaning = { λ x. x };

    ghost lawful = { λ w. 0 < w.n };

    ghost fits = { λ w x. x < w.n };

    ghost least = { λ _ x. x ≡ 0 };

    ghost joins = { λ _ x y z. z ≡ max x y };

    ghost precedes = { λ _ x y. x < y };

    fn bottom(&self, _alloc: Global) -> Result<u16, AllocError> {
        Ok(0)
    }

    fn join(&self, _alloc: Global, a: &u16, b: &u16) -> Result<u16, AllocError> {
        let (left, right) = (*a, *b);
        Ok(left.max(right))
    }

    fn copy(&self, _alloc: Global, a: &u16) -> Result<u16, AllocError> {
        Ok(*a)
    }

    fn before(&self, a: &u16, b: &u16) -> bool {
        *a < *b
    }

    fn same(&self, a: &u16, b: &u16) -> bool {
        *a == *b
    }

    ghost least_fits = { λ w x lawful is. Prim.omega arith };

    ghost least_once = { λ w x other lawful is same. Prim.omega arith };

    ghost joins_fit = { λ w x y z lawful left right joined. Prim.omega arith };

    ghost joins_once = { λ w x y z other lawful left right one two. Prim.omega arith };

    ghost joins_commute = { λ w x y z lawful left right joined. Prim.omega arith };

    ghost joins_associate = { λ w x y z front back all lawful a b c d e f. Prim.omega arith };

    ghost joins_repeat = { λ w x lawful fit. Prim.omega arith };

    ghost joins_least = { λ w x y lawful is fit. Prim.omega arith };

    ghost precedes_irreflexive = { λ w x lawful fit below. Prim.omega arith };

    ghost precedes_transitive = { λ w x y z lawful a b c d e. Prim.omega arith };

    ghost precedes_total = { λ w x y lawful left right. Prim.grind arith };
}
