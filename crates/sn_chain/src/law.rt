//! What a chain holds after any list of offers, since it was made or cleared. A program never calls these
//! functions; each states a fact about the definitions that the contract of `Chain::offer` cites.
ghost use Rattle.std.specs.Prelude.{◌≡◌, ◌≤◌, ◌++◌, ◌∷◌, ℕ, List, All, map};
ghost use Rattle.std.specs.List.{list_any};
ghost use Rattle.sn_base.specs.Groups.{Row, paired, same_row};
ghost use Rattle.sn_chain.specs.Chain.{after_offers, answer_at, answer_for, empty_chain, has_home, holder, keys_of, resident_at, total_of, vacancy};
ghost use Rattle.sn_chain.specs.Homes.{held_in_order, homes_by_place};
ghost use Rattle.sn_chain.specs.Registers.{cell};

use sn_base::fold::Fold;

/// Whatever was offered, each place holds the key that resides there by the whole list of offered keys, with
/// the fold of all values offered with that key. Every other place is empty.
pub fn offers_reside<F: Fold>()
    ensures { (f : F) (depth slots : ℕ) (offers : List (Row × ℕ)) (p : ℕ) → 1 ≤ slots → All (λ o. F.takes f o.1) offers →
        cell (after_offers F.join (empty_chain f depth slots) offers).cells p ≡ resident_at (F.join f) (F.start f) depth slots offers p }
{}

/// Each offer, among those before it and those after it, is answered by its key's residence in the whole
/// list: the first offer of a resident key by `New`, each later one by `Held`, and every offer of an
/// overflow key by `Over`.
pub fn answers_reside<F: Fold>()
    ensures { (f : F) (depth slots : ℕ) (before later : List (Row × ℕ)) (key : Row) (v : ℕ) → 1 ≤ slots → All (λ o. F.takes f o.1) before →
        answer_at (holder (after_offers F.join (empty_chain f depth slots) before) key) (vacancy (after_offers F.join (empty_chain f depth slots) before) key)
        ≡ answer_for (has_home depth slots (keys_of (before ++ (key, v) ∷ later)) key) (list_any (same_row key) (keys_of before)) }
{}

/// The cells in order, without the empty ones, hold the resident keys by rising place, each with the fold of
/// all its values. So a walk over all places with `Chain::get` reads them out in that order.
pub fn read_out_rises<F: Fold>()
    ensures { (f : F) (depth slots : ℕ) (offers : List (Row × ℕ)) → 1 ≤ slots → All (λ o. F.takes f o.1) offers →
        held_in_order (after_offers F.join (empty_chain f depth slots) offers).cells
        ≡ map (paired (total_of (F.join f) (F.start f) offers)) (homes_by_place depth slots (keys_of offers)) }
{}
