//! A row: at most eight numbers of 128 bits, held in place.
ghost use Rattle.std.specs.Prelude.{◌≡◌, ℕ, ◌≤◌, ◌<◌, ◌↔◌, [], ◌∷◌, ◌++◌, List, fold, length, take, IfSome, IsNone, Some, slice_get, refl, nat_eq};
ghost use Rattle.std.proofs.Common.{rules};
ghost use Rattle.std.specs.Hash as fed;
ghost use Rattle.std.specs.Cmp;
ghost use Rattle.sn_base.specs.Rows.{halves};
ghost use Rattle.std.specs.Cmp.Rules.{hashing};
ghost use Rattle.std.specs.Ordering.{nat_cmp};
ghost use Rattle.std.specs.Cmp.Lexicographic.{pointwise, slice_cmp, nat_list_eq_equiv, nat_list_cmp_total, texts_po, texts_ties};

use crate::any_row::AnyRow;
use crate::columns::Columns;
use crate::short_row::ShortRow;
use std::cmp::Ordering;
use std::hash::{Hash, Hasher};
use std::marker::Model;

/// At most eight numbers of 128 bits.
#[derive(Clone, Copy, Debug)]
pub struct Row {
    columns: [u128; 8],
    count: usize,
}

impl Model for Row {
    ghost use Rattle.std.specs.Prelude.{◌≡◌, ℕ, ◌≤◌, List, length, take};
    ghost use Rattle.std.specs.Coded.{coded_ℕ, coded_list};
    ghost use Rattle.sn_base.specs.Rows.{filled, IsFilled, filled_back, count_back};

    ghost Value = { List ℕ };

    ghost coded = { coded_list coded_ℕ };

    ghost view = { λ a. take a.count a.columns };

    ghost invariant = { λ a. IsFilled a.columns a.count };

    ghost inverse = { λ xs. record { columns = filled xs; count = length xs } };

    ghost inverse_ok = { λ a h i. record { columns = filled_back a.columns a.count h i; count = count_back a.columns a.count h i } };
}

impl Row {
    /// The row of these numbers. `None` exactly where there are more than eight.
    pub fn new(columns: &[u128]) -> Option<Row>
        ensures some { IfSome result (λ row. row ≡ columns.now) }
        ensures none { IsNone result ↔ (8 < length columns.now) }
    {
        let count = columns.len();
        if count > 8 {
            return None;
        }
        let mut held = [0; 8];
        held[..count].copy_from_slice(columns);
        Some(Row {
            columns: held,
            count,
        })
    }

    /// The row of no column.
    pub fn empty() -> Row
        ensures { result ≡ [] }
    {
        Row {
            columns: [0; 8],
            count: 0,
        }
    }

    /// A short row, with columns of 128 bits.
    pub fn of_short(short: &ShortRow) -> Row
        ensures { result ≡ short.now }
    {
        let mut row = Row::empty();
        for column in short.as_slice() {
            row.push(u128::from(*column));
        }
        row
    }

    /// The columns, in order.
    pub fn as_slice(&self) -> &[u128]
        ensures value { result.now ≡ self.now }
        ensures most { length self.now ≤ 8 }
    {
        &self.columns[..self.count]
    }

    /// How many columns there are.
    pub fn len(&self) -> usize
        ensures value { result ≡ length self.now }
        ensures most { result ≤ 8 }
    {
        self.count
    }

    /// The column at a place. `None` exactly past the end.
    pub fn get(&self, place: usize) -> Option<u128>
        ensures { result ≡ slice_get self.now place }
    {
        self.as_slice().get(place).copied()
    }

    /// Puts one more column after the others, in place.
    pub fn push(&mut self, value: u128)
        requires { length self.old < 8 }
        ensures { self.new ≡ self.old ++ value ∷ [] }
    {
        self.columns[self.count] = value;
        self.count += 1;
    }

    /// The row with one more column. `None` exactly where it has eight.
    pub fn with(self, value: u128) -> Option<Row>
        ensures some { IfSome result (λ row. row ≡ self ++ value ∷ []) }
        ensures none { IsNone result ↔ (length self ≡ 8) }
    {
        if self.count == 8 {
            return None;
        }
        let mut row = self;
        row.push(value);
        Some(row)
    }
}

impl PartialEq for Row {
    ghost eq = { pointwise nat_eq };

    ghost laws = { Cmp.partial_equiv_from_equiv nat_list_eq_equiv };

    fn eq(&self, other: &Row) -> bool {
        self.as_slice() == other.as_slice()
    }
}

impl Eq for Row {
    ghost laws = { nat_list_eq_equiv };
}

impl PartialOrd for Row {
    ghost partial_cmp = { λ x y. Some (slice_cmp nat_cmp x y) };

    ghost laws = { texts_po };

    fn partial_cmp(&self, other: &Row) -> Option<Ordering> {
        Some(self.cmp(other))
    }
}

impl Ord for Row {
    ghost cmp = { slice_cmp nat_cmp };

    ghost total = { nat_list_cmp_total };

    ghost matches_partial_cmp = { λ x y. refl };

    ghost matches_eq = { λ x y. texts_ties x y };

    fn cmp(&self, other: &Row) -> Ordering {
        self.as_slice().cmp(other.as_slice())
    }
}

/// Feeds a column as two numbers of 64 bits.
fn feed<H: Hasher>(column: u128, state: &mut H)
    ensures { state.new ≡ fold H.write state.old (halves column) }
{
    const WORD: u128 = 1 << 64;
    state.write_u64((column % WORD) as u64);
    state.write_u64((column / WORD) as u64);
}

impl Hash for Row {
    ghost hash_input = { λ xs. fed.slice halves xs };

    ghost respects_eq = { Prim.search (hashing, rules) };

    /// Each column is fed as two numbers of 64 bits. The hasher multiplies the halves of 16 bytes by each other, so that columns
    /// with one half, which whoever sends packets may choose, would all have one hash, whatever the seed.
    fn hash<H: Hasher>(&self, state: &mut H) {
        state.write_usize(self.count);
        for column in self.as_slice() {
            feed(*column, state);
        }
    }
}

impl Columns for Row {
    type Number = u128;

    ghost use Rattle.std.specs.Prelude.{List, ℕ};

    ghost columns = { λ row. row };

    fn column(&self, place: u32) -> u128 {
        self.as_slice()[place as usize]
    }
}

impl AnyRow for Row {
    ghost same = { λ a b. refl };

    fn empty() -> Row {
        Row::empty()
    }

    fn len(&self) -> usize {
        self.count
    }

    fn push(&mut self, number: u128) {
        self.columns[self.count] = number;
        self.count += 1;
    }

    fn resize(&mut self, count: usize) {
        if count < self.count {
            self.columns[count..].fill(0);
        }
        self.count = count;
    }

    fn set(&mut self, place: usize, number: u128) {
        self.columns[..self.count][place] = number;
    }
}
