//! Widths of rows, and bits of registers.
ghost use Rattle.std.specs.Prelude.{◌≡◌, ◌≤◌, ◌*◌, ◌^◌};
ghost use Rattle.std.specs.List.{sum_by};
ghost use Rattle.sn_plan_fit.specs.Registers.{row_width, width_at, fold_width, key_bits, value_bits, register_bits};
ghost use Rattle.sn_plan_fit.specs.Capped.{capped};

use sn_base::any_fold::AnyFold;
use sn_base::schema::Schema;
use sn_types::typed_op::TOp;

/// The width of a row, in bits.
pub fn row_width(columns: &Schema) -> u64
    ensures value { result ≡ row_width columns.now }
    ensures most { result ≤ 8 * 2 ^ 32 }
{
    let mut width = 0;
    for column in columns.as_slice() {
        width += u64::from(column.width);
    }
    width
}

fn width_at(columns: &Schema, place: u32) -> u64
    ensures { result ≡ width_at columns.now place }
{
    match columns.get(place as usize) {
        None => 0,
        Some(column) => u64::from(column.width),
    }
}

/// The width of some columns together, in bits, or 2^64 - 1 where it is more.
fn width_of(columns: &Schema, places: &[u32]) -> u64
    ensures { result ≡ capped (sum_by (width_at columns.now) places.now) }
{
    let mut width: u64 = 0;
    for place in places {
        width = width.saturating_add(width_at(columns, *place));
    }
    width
}

fn fold_width(fold: AnyFold) -> u64
    ensures { result ≡ fold_width fold }
{
    match fold {
        AnyFold::SatSum(fold) => u64::from(fold.v),
        AnyFold::Max(fold) => u64::from(fold.v),
        AnyFold::Min(fold) => u64::from(fold.v),
        AnyFold::Or(fold) => u64::from(fold.v),
    }
}

fn key_bits(columns: &Schema, op: &TOp) -> u64
    ensures { result ≡ capped (key_bits columns.now op.now) }
{
    match op {
        TOp::Filter(_) | TOp::Map(_) => 0,
        TOp::Distinct => row_width(columns),
        TOp::Reduce(reduce) => width_of(columns, reduce.keys.as_slice()),
    }
}

fn value_bits(op: &TOp) -> u64
    ensures { result ≡ value_bits op.now }
{
    match op {
        TOp::Filter(_) | TOp::Map(_) | TOp::Distinct => 0,
        TOp::Reduce(reduce) => fold_width(reduce.fold),
    }
}

/// The bits of a register of a stateful operator with this many slots, to which rows of these columns come: each slot holds a key,
/// a value and one bit. 2^64 - 1 where there are more.
#[tactic(auto, using(crate::proofs::Caps::register_capped))]
pub fn register_bits(size: u32, columns: &Schema, op: &TOp) -> u64
    ensures { result ≡ capped (register_bits size columns.now op.now) }
{
    let slot = key_bits(columns, op)
        .saturating_add(value_bits(op))
        .saturating_add(1);
    u64::from(size).saturating_mul(slot)
}
