//! Operators that group rows.
ghost use Rattle.std.specs.Prelude.{◌≡◌, ◌<◌, ◌≤◌, ◌++◌, ◌∷◌, [], All, length, map, take, not, slice_index, unwrap_or, IfOk, OnOk};
ghost use Rattle.std.specs.List.{list_any};
ghost use Rattle.std.specs.Map.{lookup};
ghost use Rattle.sn_base.specs.AnyFold.{any_has, any_unit, any_step};
ghost use Rattle.indexmap.specs.IndexMap.{insert_entry};
ghost use Rattle.indexmap.specs.IndexSet.{insert_key};
ghost use Rattle.sn_base.specs.Groups.{same_row, folded};
ghost use Rattle.sn_base.specs.Operators.{apply, grouped, pair_of, parted};
ghost use Rattle.sn_ops.specs.Flow.{grouping_of, ReduceFits, ArePartsOf};
ghost use Rattle.sn_types.specs.Values.{op_at};

use sn_base::any_row::AnyRow;
use sn_base::memory::Memory;
use sn_base::number::Number;
use sn_base::row_seq::RowSeq;
use sn_base::seed::Seed;
use sn_table::rows::Rows;
use sn_table::table::Table;
use sn_types::evaluate::folded_at;
use sn_types::typed_op::{TOp, TReduce};
use std::alloc::Global;

/// Each row that occurs once, in the order of first places.
pub fn distinct<R: AnyRow>(alloc: Global, rows: &RowSeq<R>) -> Result<RowSeq<R>, Memory>
    ensures { IfOk result (λ out. out ≡ apply (op_at 0 TOp.Distinct) rows.now) }
{
    distinct_by(alloc, Seed::new(0), rows)
}

/// `distinct`, with a table that hashes from this seed.
pub fn distinct_by<R: AnyRow>(
    alloc: Global,
    seed: Seed,
    rows: &RowSeq<R>,
) -> Result<RowSeq<R>, Memory>
    ensures { IfOk result (λ out. out ≡ apply (op_at 0 TOp.Distinct) rows.now) }
{
    let mut seen = Rows::new(alloc, seed);
    let mut out = RowSeq::with_room(alloc, rows.len())?;
    for place in 0..rows.len() {
        let row = rows.at(place);
        if seen.insert(row)? {
            out.push(row)?;
        }
    }
    Ok(out)
}

/// A row for each group: its key, then its fold.
pub(crate) fn rows_of<R: AnyRow>(alloc: Global, groups: &Table<R>) -> Result<RowSeq<R>, Memory>
    requires { All (λ g. length g.0 < 8) groups.now.entries }
    ensures { IfOk result (λ out. out ≡ map (λ g. g.0 ++ g.1 ∷ []) groups.now.entries) }
{
    let mut out = RowSeq::with_room(alloc, groups.len())?;
    let mut row = R::empty();
    for place in 0..groups.len() {
        let Some(total) = groups.get_into(place, &mut row) else {
            unreachable!();
        };
        row.push(R::Number::of_word(total));
        out.push(&row)?;
    }
    Ok(out)
}

/// The first columns of a row.
fn front_of<R: AnyRow>(row: &R, count: usize) -> R
    requires { count ≤ length (R.columns row.now) }
    ensures { R.columns result ≡ take count (R.columns row.now) }
{
    let most = row.len();
    let mut front = R::empty();
    for place in 0..count.min(most) {
        front.push(row.column(place as u32));
    }
    front
}

/// Each key that occurs in the rows, with the fold of that key's values from the unit.
fn groups_of<R: AnyRow>(
    alloc: Global,
    seed: Seed,
    rows: &RowSeq<R>,
    r: &TReduce,
) -> Result<Table<R>, Memory>
    requires { ReduceFits r.now rows.now }
    ensures { IfOk result (λ groups. groups.entries ≡
        folded same_row (any_step r.now.fold) (any_unit r.now.fold) (map (pair_of (grouping_of r.now)) rows.now)) }
{
    let mut groups = Table::new(alloc, seed);
    for place in 0..rows.len() {
        let row = rows.at(place);
        let value = folded_at(r.fold, row, r.value);
        groups.add_at(r.fold, row, r.keys.as_slice(), value)?;
    }
    Ok(groups)
}

/// One row for each key that occurs in the rows or in the Partial rows, in the order of first places: the key columns,
/// then the fold of all that key's values from the unit. A Partial row is a key with the fold of a part of its values.
/// The table of keys hashes from this seed.
pub fn reduce_with<R: AnyRow>(
    alloc: Global,
    seed: Seed,
    rows: &RowSeq<R>,
    parts: &RowSeq<R>,
    r: &TReduce,
) -> Result<RowSeq<R>, Memory>
    requires rows { ReduceFits r.now rows.now }
    requires parts { ArePartsOf r.now parts.now }
    ensures { let g = grouping_of r.now in IfOk result (λ out. out ≡ grouped g (map (pair_of g) rows.now ++ map (parted g) parts.now)) }
{
    let count = r.keys.as_slice().len();
    let mut groups = groups_of(alloc, seed, rows, r)?;
    for place in 0..parts.len() {
        let part = parts.at(place);
        let value = folded_at(r.fold, part, count as u32);
        groups.add(r.fold, &front_of(part, count), value)?;
    }
    rows_of(alloc, &groups)
}

/// One row for each key that occurs, in the order of first places: the key columns, then the fold of that key's
/// values from the unit.
pub fn reduce<R: AnyRow>(alloc: Global, rows: &RowSeq<R>, r: &TReduce) -> Result<RowSeq<R>, Memory>
    requires few { length r.now.keys < 8 }
    requires places { All (λ row. All (λ place. place < length row) r.now.keys) rows.now }
    requires value { All (λ row. r.now.value < length row) rows.now }
    requires had { All (λ row. any_has r.now.fold (slice_index row r.now.value)) rows.now }
    ensures { IfOk result (λ out. out ≡ apply (op_at 0 (TOp.Reduce r.now)) rows.now) }
{
    reduce_by(alloc, Seed::new(0), rows, r)
}

/// `reduce`, with a table that hashes from this seed.
pub fn reduce_by<R: AnyRow>(
    alloc: Global,
    seed: Seed,
    rows: &RowSeq<R>,
    r: &TReduce,
) -> Result<RowSeq<R>, Memory>
    requires few { length r.now.keys < 8 }
    requires places { All (λ row. All (λ place. place < length row) r.now.keys) rows.now }
    requires value { All (λ row. r.now.value < length row) rows.now }
    requires had { All (λ row. any_has r.now.fold (slice_index row r.now.value)) rows.now }
    ensures { IfOk result (λ out. out ≡ apply (op_at 0 (TOp.Reduce r.now)) rows.now) }
{
    let none = RowSeq::new(alloc);
    reduce_with(alloc, seed, rows, &none, r)
}
