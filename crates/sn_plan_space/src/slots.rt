//! The tables of a piece, made of its operators.
ghost use Rattle.std.specs.Prelude.{◌≡◌, ◌≤◌, ℕ, List, ◌++◌, map, replicate, slice_index, IfOk, OnOk};
ghost use Rattle.sn_switch.specs.Texts.{IsSwitch};
ghost use Rattle.sn_types.specs.Typed.{schema_at};
ghost use Rattle.sn_plan_fit.specs.Capped.{capped};
ghost use Rattle.sn_plan_choices.specs.Options as choices;
ghost use Rattle.sn_plan_choices.specs.Settings.{written};
ghost use Rattle.sn_plan_space.specs.Known.{known_slot};
ghost use Rattle.sn_plan_space.specs.Made.{op_table, sizes_after, membership};

use crate::known::{Slot, Slots};
use sn_base::memory::Memory;
use sn_base::schema::Schema;
use sn_base::seq::Seq;
use sn_plan_choices::setting::Setting;
use sn_plan_fit::piece::prefix;
use sn_plan_fit::width::register_bits;
use sn_switch::switch::Switch;
use sn_types::cuts::is_stateful;
use sn_types::typed_op::TOp;
use sn_types::typed_query::TypedBranch;
use std::alloc::Global;

/// The columns of the rows that come to an operator.
fn columns_at(schemas: &[Schema], n: usize) -> Schema
    ensures { result ≡ schema_at schemas.now n }
{
    match schemas.get(n) {
        Some(schema) => *schema,
        None => Schema::new(),
    }
}

/// Adds a chain of registers.
fn add_chain(slots: &mut Seq<Slot>, depth: u32, bits: u64) -> Result<(), Memory>
    ensures { OnOk result (slots.new ≡ slots.old ++ replicate depth (Slot.Keyed bits)) }
{
    for _ in 0..depth {
        slots.push(Slot::Keyed(bits))?;
    }
    Ok(())
}

/// Adds the tables of an operator.
fn add_op(
    slots: &mut Seq<Slot>,
    depth: u32,
    columns: &Schema,
    op: &TOp,
    size: u32,
) -> Result<(), Memory>
    ensures { OnOk result (slots.new ≡ slots.old ++ map known_slot (op_table depth columns.now op.now size)) }
{
    if is_stateful(op) {
        add_chain(slots, depth, register_bits(size, columns, op))
    } else {
        slots.push(Slot::Plain)
    }
}

/// The first of these sizes, or 0.
fn first(sizes: &[u32]) -> u32
    ensures { result ≡ slice_index sizes.now 0 }
{
    match sizes {
        [] => 0,
        [first, ..] => *first,
    }
}

/// The sizes after the one that an operator takes, if it takes one.
fn following<'a>(sizes: &'a [u32], op: &TOp) -> &'a [u32]
    ensures { result.now ≡ sizes_after op.now sizes.now }
{
    if !is_stateful(op) {
        return sizes;
    }
    match sizes {
        [] => sizes,
        [_, rest @ ..] => rest,
    }
}

/// Adds the tables of operators in order, in chains of `depth`: the stateful ones take these sizes.
fn add_ops(
    slots: &mut Seq<Slot>,
    depth: u32,
    schemas: &[Schema],
    ops: &[TOp],
    sizes: &[u32],
) -> Result<(), Memory>
    ensures { OnOk result (slots.new ≡ slots.old ++ map known_slot (choices.op_slots depth schemas.now 0 ops.now sizes.now)) }
{
    let mut left = sizes;
    for (n, op) in ops.iter().enumerate() {
        add_op(slots, depth, &columns_at(schemas, n), op, first(left))?;
        left = following(left, op);
    }
    Ok(())
}

/// The membership table of a piece, if it has one.
fn membership(alloc: Global, is_first: bool) -> Result<Seq<Slot>, Memory>
    ensures { IfOk result (λ slots. slots ≡ map known_slot (membership is_first)) }
{
    let mut slots = Seq::new(alloc);
    if is_first {
        return Ok(slots);
    }
    slots.push(Slot::Plain)?;
    Ok(slots)
}

/// The tables of a piece of a branch with an option.
pub fn piece_slots(
    alloc: Global,
    s: &Switch,
    is_first: bool,
    branch: &TypedBranch,
    setting: &Setting,
) -> Result<Slots, Memory>
    requires switch { IsSwitch s.now }
    requires cut { setting.now.cut ≤ 12 }
    requires few { setting.now.used ≤ 2 }
    ensures { (o : choices.Setting) → setting.now ≡ written o →
        IfOk result (λ slots. slots ≡ map known_slot (choices.piece_slots s.now is_first branch.now o)) }
{
    let mut slots = membership(alloc, is_first)?;
    let ops = prefix(branch, setting.cut);
    let sizes = &setting.sizes[..setting.used as usize];
    add_ops(&mut slots, s.chain, branch.schemas.as_slice(), ops, sizes)?;
    Ok(Slots::new(slots))
}
