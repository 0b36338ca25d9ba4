//! A name: one to thirty-two bytes, held in place.
ghost use Rattle.std.specs.Prelude.{◌≡◌, ℕ, ◌≤◌, ◌<◌, ◌↔◌, ◌⊎◌, List, length, take, IfSome, IsNone, Some, refl, nat_eq};
ghost use Rattle.std.proofs.Common.{rules};
ghost use Rattle.std.specs.Hash as fed;
ghost use Rattle.std.specs.Cmp;
ghost use Rattle.std.specs.Cmp.Rules.{hashing};
ghost use Rattle.std.specs.Ordering.{nat_cmp};
ghost use Rattle.std.specs.Cmp.Lexicographic.{pointwise, slice_cmp, nat_list_eq_equiv, nat_list_cmp_total, texts_po, texts_ties};

use std::cmp::Ordering;
use std::hash::{Hash, Hasher};
use std::marker::Model;

/// One to thirty-two bytes.
#[derive(Clone, Copy, Debug)]
pub struct Name {
    bytes: [u8; 32],
    count: usize,
}

impl Model for Name {
    ghost use Rattle.std.specs.Prelude.{◌≡◌, ℕ, ◌≤◌, ◌<◌, List, length, take};
    ghost use Rattle.std.specs.Coded.{coded_ℕ, coded_list};
    ghost use Rattle.sn_base.specs.Rows.{filled_to, IsFilledTo, filled_to_back, count_to_back};

    ghost Value = { List ℕ };

    ghost coded = { coded_list coded_ℕ };

    ghost view = { λ a. take a.count a.bytes };

    ghost invariant = { λ a. (0 < a.count) × IsFilledTo 32 a.bytes a.count };

    ghost inverse = { λ xs. record { bytes = filled_to 32 xs; count = length xs } };

    ghost inverse_ok = { λ a h i. record { bytes = filled_to_back 32 a.bytes a.count h.1 i; count = count_to_back 32 a.bytes a.count h.1 i } };
}

impl Name {
    /// The name of these bytes. `None` exactly where their number isn't 1 to 32.
    pub fn new(text: &[u8]) -> Option<Name>
        ensures some { IfSome result (λ name. name ≡ text.now) }
        ensures none { IsNone result ↔ ((length text.now ≡ 0) ⊎ (32 < length text.now)) }
    {
        let count = text.len();
        if count == 0 || count > 32 {
            return None;
        }
        let mut held = [0; 32];
        held[..count].copy_from_slice(text);
        Some(Name { bytes: held, count })
    }

    /// The bytes, in order.
    pub fn as_bytes(&self) -> &[u8]
        ensures value { result.now ≡ self.now }
        ensures some { 0 < length self.now }
        ensures most { length self.now ≤ 32 }
    {
        &self.bytes[..self.count]
    }
}

impl PartialEq for Name {
    ghost eq = { pointwise nat_eq };

    ghost laws = { Cmp.partial_equiv_from_equiv nat_list_eq_equiv };

    fn eq(&self, other: &Name) -> bool {
        self.as_bytes() == other.as_bytes()
    }
}

impl Eq for Name {
    ghost laws = { nat_list_eq_equiv };
}

impl PartialOrd for Name {
    ghost partial_cmp = { λ x y. Some (slice_cmp nat_cmp x y) };

    ghost laws = { texts_po };

    fn partial_cmp(&self, other: &Name) -> Option<Ordering> {
        Some(self.cmp(other))
    }
}

impl Ord for Name {
    ghost cmp = { slice_cmp nat_cmp };

    ghost total = { nat_list_cmp_total };

    ghost matches_partial_cmp = { λ x y. refl };

    ghost matches_eq = { λ x y. texts_ties x y };

    fn cmp(&self, other: &Name) -> Ordering {
        self.as_bytes().cmp(other.as_bytes())
    }
}

impl Hash for Name {
    ghost hash_input = { λ xs. fed.slice fed.u8 xs };

    ghost respects_eq = { Prim.search (hashing, rules) };

    fn hash<H: Hasher>(&self, state: &mut H) {
        self.as_bytes().hash(state);
    }
}
