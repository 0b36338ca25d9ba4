//! A number of 128 bits as a key.
ghost use Rattle.std.specs.Prelude.{◌≡◌, ◌%◌, ◌/◌, ◌^◌, ◌++◌, nat_eq};
ghost use Rattle.std.proofs.Common.{rules};
ghost use Rattle.std.proofs.lemmas.Cmp.{nat_eq_equiv};
ghost use Rattle.std.specs.Hash as fed;
ghost use Rattle.std.specs.Cmp;
ghost use Rattle.std.specs.Cmp.Rules.{hashing};

use std::hash::{Hash, Hasher};
use std::marker::Model;

/// A number of 128 bits as a key.
///
/// It is hashed as two numbers of 64 bits. The hasher multiplies the halves of 16 bytes by each other, so that numbers
/// with one upper half, that whoever sends packets may choose, would all have one hash, whatever the seed.
#[derive(Clone, Copy)]
pub(crate) struct NumberKey {
    held: u128,
}

impl Model for NumberKey {
    ghost use Rattle.std.specs.Prelude.{ℕ};
    ghost use Rattle.std.specs.Coded.{coded_ℕ};

    ghost Value = { ℕ };

    ghost coded = { coded_ℕ };

    ghost view = { λ n. n.held };

    ghost inverse = { λ n. record { held = n } };
}

impl NumberKey {
    pub fn new(held: u128) -> NumberKey
        ensures { result ≡ held }
    {
        NumberKey { held }
    }

    pub fn get(self) -> u128
        ensures { result ≡ self }
    {
        self.held
    }
}

impl PartialEq for NumberKey {
    ghost eq = { nat_eq };

    ghost laws = { Cmp.partial_equiv_from_equiv nat_eq_equiv };

    fn eq(&self, other: &NumberKey) -> bool {
        self.held == other.held
    }
}

impl Eq for NumberKey {
    ghost laws = { nat_eq_equiv };
}

impl Hash for NumberKey {
    ghost hash_input = { λ n. fed.u64 (n % 2 ^ 64) ++ fed.u64 (n / 2 ^ 64) };

    ghost respects_eq = { Prim.search (hashing, rules) };

    fn hash<H: Hasher>(&self, state: &mut H) {
        const HALF: u128 = 1 << 64;
        state.write_u64((self.held % HALF) as u64);
        state.write_u64((self.held / HALF) as u64);
    }
}
