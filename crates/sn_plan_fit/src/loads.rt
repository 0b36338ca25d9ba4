//! What the pieces of a plan take of the stages of a switch together, filled in one walk over the pieces.
ghost use Rattle.std.specs.Prelude.{◌≡◌, ◌<◌, ℕ, [], ◌∷◌, Some, map, take, drop, slice_get, slice_index};
ghost use Rattle.sn_types.specs.Typed.{schema_at};
ghost use Rattle.sn_plan_fit.specs.Capped.{capped};
ghost use Rattle.sn_plan_fit.specs.Loads.{AreLoads, Adds};
ghost use Rattle.sn_plan_fit.specs.Registers.{in_stage, register_bits, taken};
ghost use Rattle.sn_plan_fit.specs.Pieces.{on_branch, piece_branch, registers_of, entry_registers, all_registers};

use crate::piece::{branch_of, prefix};
use crate::width::register_bits;
use sn_base::schema::Schema;
use sn_plan_grammar::plan::{Entry, Piece};
use sn_types::cuts::is_stateful;
use sn_types::typed_op::TOp;
use sn_types::typed_query::{TypedBranch, TypedQuery};
use std::marker::Model;

/// Registers in one stage and their bits, each at most 2^64 - 1.
#[derive(Clone, Copy, Debug, PartialEq, Eq)]
pub struct Load {
    pub registers: u64,
    pub bits: u64,
}

/// The stages that a switch may have.
const STAGES: usize = 32;

/// The loads of the stages 0 to 31. A register in a later stage is in none of them.
#[derive(Clone, Copy)]
pub struct Loads {
    stages: [Load; 32],
}

impl Model for Loads {
    ghost use Rattle.std.specs.Prelude.{List};
    ghost use Rattle.sn_plan_fit.specs.declared.loads.Load.{Load};

    ghost Value = { List Load };

    ghost view = { λ a. a.stages };

    ghost inverse = { λ xs. record { stages = xs } };
}

impl Loads {
    /// No register in any stage.
    pub fn new() -> Loads
        ensures { AreLoads result [] }
    {
        let none = Load {
            registers: 0,
            bits: 0,
        };
        Loads {
            stages: [none; STAGES],
        }
    }

    /// Adds a register of this many bits to a stage; bits past 2^64 - 1 are given as that number.
    pub fn add(&mut self, stage: u32, bits: u64)
        ensures { (all : ℕ) → bits ≡ capped all → Adds self.old self.new (in_stage all stage ∷ []) }
    {
        let place = stage as usize;
        if place < STAGES {
            let load = self.stages[place];
            self.stages[place] = Load {
                registers: load.registers.saturating_add(1),
                bits: load.bits.saturating_add(bits),
            };
        }
    }

    /// What stands in a stage.
    pub fn at(&self, stage: u32) -> Load
        requires { stage < 32 }
        ensures { slice_get self.now stage ≡ Some result }
    {
        self.stages[stage as usize]
    }
}

/// The columns of the rows that come to an operator.
pub(crate) fn schema_at(schemas: &[Schema], n: usize) -> Schema
    ensures { result ≡ schema_at schemas.now n }
{
    match schemas.get(n) {
        Some(schema) => *schema,
        None => Schema::new(),
    }
}

/// Adds a chain of registers, each of this many bits.
fn add_chain(loads: &mut Loads, bits: u64, stages: &[u32])
    ensures { (all : ℕ) → bits ≡ capped all → Adds loads.old loads.new (map (in_stage all) stages.now) }
{
    for stage in stages {
        loads.add(*stage, bits);
    }
}

/// The first n numbers, or all of them, and the rest.
fn split<'a>(numbers: &'a [u32], count: usize) -> (&'a [u32], &'a [u32])
    ensures front { result.0.now ≡ take count numbers.now }
    ensures following { result.1.now ≡ drop count numbers.now }
{
    numbers.split_at(count.min(numbers.len()))
}

fn first(numbers: &[u32]) -> u32
    ensures { result ≡ slice_index numbers.now 0 }
{
    match numbers {
        [] => 0,
        [first, ..] => *first,
    }
}

/// What an operator takes of a number of sizes: all where it is stateful, and else none.
fn taken(op: &TOp, count: usize) -> usize
    ensures { result ≡ taken op.now count }
{
    if is_stateful(op) { count } else { 0 }
}

/// Adds the registers of an operator, which stand in these stages.
fn add_op(loads: &mut Loads, size: u32, columns: &Schema, op: &TOp, stages: &[u32])
    ensures { Adds loads.old loads.new (map (in_stage (register_bits size columns.now op.now)) stages.now) }
{
    let bits = register_bits(size, columns, op);
    add_chain(loads, bits, stages);
}

/// Adds the registers of a piece of a branch, in chains of `depth`.
pub fn add_piece(loads: &mut Loads, depth: usize, branch: &TypedBranch, piece: &Piece)
    ensures { Adds loads.old loads.new (registers_of depth branch.now piece.now) }
{
    let ops = prefix(branch, piece.cut);
    let schemas = branch.schemas.as_slice();
    let mut sizes = piece.slots.as_slice();
    let mut stages = piece.stages.as_slice();
    for (n, op) in ops.iter().enumerate() {
        let (own, after) = split(stages, taken(op, depth));
        let columns = schema_at(schemas, n);
        add_op(loads, first(sizes), &columns, op, own);
        sizes = split(sizes, taken(op, 1)).1;
        stages = after;
    }
}

/// Adds the registers of a piece of a query.
fn add_query_piece(loads: &mut Loads, depth: usize, query: &TypedQuery, piece: &Piece)
    ensures { Adds loads.old loads.new (on_branch [] (λ b. registers_of depth b piece.now) (piece_branch query.now piece.now)) }
{
    match branch_of(query, piece) {
        None => {}
        Some(branch) => add_piece(loads, depth, branch, piece),
    }
}

fn add_entry(loads: &mut Loads, depth: usize, query: &TypedQuery, pieces: &[Piece])
    ensures { Adds loads.old loads.new (entry_registers depth query.now pieces.now) }
{
    for piece in pieces {
        add_query_piece(loads, depth, query, piece);
    }
}

/// Adds the registers of all pieces.
fn add_plan(loads: &mut Loads, depth: usize, queries: &[TypedQuery], entries: &[Entry])
    ensures { Adds loads.old loads.new (all_registers depth queries.now entries.now) }
{
    let mut rest = entries;
    for query in queries {
        let Some((entry, after)) = rest.split_first() else {
            return;
        };
        add_entry(loads, depth, query, entry.pieces.as_slice());
        rest = after;
    }
}

/// What all pieces take of each stage.
pub fn plan_loads(depth: usize, queries: &[TypedQuery], entries: &[Entry]) -> Loads
    ensures { AreLoads result (all_registers depth queries.now entries.now) }
{
    let mut loads = Loads::new();
    add_plan(&mut loads, depth, queries, entries);
    loads
}
