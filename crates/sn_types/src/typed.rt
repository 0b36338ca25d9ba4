//! A typed file of queries.
ghost use Rattle.std.specs.Prelude.{◌≡◌, ◌<◌, ◌≤◌, ◌*◌, IfOk, length, nat_eq, true, false, ◌^◌};
ghost use Rattle.std.specs.List.{list_any};
ghost use Rattle.sn_base.specs.Columns.{IsOf};
ghost use Rattle.sn_types.specs.Kinds.{AreBelow, is_wide};
ghost use Rattle.sn_types.specs.Typed.{IsTyped, query_at, branch_at, operator_at, schema_at, finest_level, first_columns, final_columns, packet_row};

use crate::copies::copy_queries;
use crate::kinds::are_wide;
use crate::packet::{PacketRow, Packets, masking, row_of};
use crate::typed_op::{JoinKey, TOp};
use crate::typed_query::{TypedBranch, TypedQuery};
use sn_base::any_row::AnyRow;
use sn_base::memory::Memory;
use sn_base::name::Name;
use sn_base::number::Number;
use sn_base::schema::Schema;
use sn_base::seed::Seed;
use sn_base::seq::Seq;
use sn_fields::field::Field;
use sn_fields::tuple::Tuple;
use std::alloc::Global;

/// The queries of a well typed file, with names and widths resolved.
///
/// Queries, branches and operators are named by their numbers, from 0 in the order of the text. A query that isn't
/// refined has the one level 0, at which nothing is masked.
#[derive(Drop)]
pub struct Typed {
    /// The allocator for copies.
    pub alloc: Global,
    /// The window in microseconds, 1 to 3600000000.
    pub window_us: u64,
    /// The seed from which tables of rows hash. No answer depends on it.
    pub seed: Seed,
    /// One to eight queries.
    pub queries: Seq<TypedQuery>,
    ghost typed: { ∥ IsTyped window_us queries ∥₁ },
}

impl Typed {
    /// The same queries, whose tables of rows hash from this seed.
    pub fn with_seed(self, seed: Seed) -> Typed
        ensures window { result.window_us ≡ self.window_us }
        ensures queries { result.queries ≡ self.queries }
    {
        let mut typed = self;
        typed.seed = seed;
        typed
    }

    /// The window in nanoseconds.
    pub fn window_ns(&self) -> u64
        ensures { result ≡ self.now.window_us * 1000 }
    {
        self.window_us * 1000
    }

    /// How many queries there are, 1 to 8.
    pub fn queries(&self) -> u32
        ensures { result ≡ length self.now.queries }
    {
        self.queries.as_slice().len() as u32
    }

    /// A query.
    pub fn query(&self, q: u32) -> &TypedQuery
        requires { q < length self.now.queries }
        ensures { result.now ≡ query_at self.now.queries q }
    {
        match self.queries.as_slice().get(q as usize) {
            Some(query) => query,
            None => unreachable!(),
        }
    }

    /// A branch of a query.
    pub fn branch(&self, q: u32, b: u32) -> &TypedBranch
        requires query { q < length self.now.queries }
        requires branch { b < length (query_at self.now.queries q).branches }
        ensures { result.now ≡ branch_at self.now.queries q b }
    {
        match self.query(q).branches.as_slice().get(b as usize) {
            Some(branch) => branch,
            None => unreachable!(),
        }
    }

    /// The name of a query.
    pub fn name(&self, q: u32) -> Name
        requires { q < length self.now.queries }
        ensures { result ≡ (query_at self.now.queries q).name }
    {
        self.query(q).name
    }

    /// The levels of a query, rising: one to four prefix lengths in bits, or the one level 0 where it isn't refined.
    pub fn levels(&self, q: u32) -> &[u32]
        requires { q < length self.now.queries }
        ensures { result.now ≡ (query_at self.now.queries q).levels }
    {
        self.query(q).levels.as_slice()
    }

    /// The finest level of a query: its last one.
    pub fn finest_level(&self, q: u32) -> u32
        requires { q < length self.now.queries }
        ensures level { result ≡ finest_level (query_at self.now.queries q) }
        ensures member { list_any (nat_eq result) (query_at self.now.queries q).levels ≡ true }
    {
        let levels = self.levels(q);
        levels[levels.len() - 1]
    }

    /// The refinement field of a query. `None` exactly where it isn't refined.
    pub fn refine_field(&self, q: u32) -> Option<Field>
        requires { q < length self.now.queries }
        ensures { result ≡ (query_at self.now.queries q).field }
    {
        self.query(q).field
    }

    /// The place of the refinement column in the final rows of a query. `None` exactly where it isn't refined.
    pub fn refine_column(&self, q: u32) -> Option<u32>
        requires { q < length self.now.queries }
        ensures { result ≡ (query_at self.now.queries q).column }
    {
        self.query(q).column
    }

    /// How many branches a query has, 1 or 2.
    pub fn branches(&self, q: u32) -> u32
        requires { q < length self.now.queries }
        ensures { result ≡ length (query_at self.now.queries q).branches }
    {
        self.query(q).branches.as_slice().len() as u32
    }

    /// How many operators a branch has, 1 to 12.
    pub fn ops(&self, q: u32, b: u32) -> u32
        requires query { q < length self.now.queries }
        requires branch { b < length (query_at self.now.queries q).branches }
        ensures { result ≡ length (branch_at self.now.queries q b).ops }
    {
        self.branch(q, b).ops.as_slice().len() as u32
    }

    /// The greatest cut of a branch: how many of its first operators can stand in a switch.
    pub fn max_cut(&self, q: u32, b: u32) -> u32
        requires query { q < length self.now.queries }
        requires branch { b < length (query_at self.now.queries q).branches }
        ensures { result ≡ (branch_at self.now.queries q b).max_cut }
    {
        self.branch(q, b).max_cut
    }

    /// Whether a branch is wide: a field that it reads, or a column of one of its schemas, has more than 64 bits.
    pub fn is_wide(&self, q: u32, b: u32) -> bool
        requires query { q < length self.now.queries }
        requires branch { b < length (query_at self.now.queries q).branches }
        ensures value { result ≡ is_wide (branch_at self.now.queries q b) }
        ensures short { result ≡ false → AreBelow (2 ^ 64) (branch_at self.now.queries q b).fields }
        ensures wide { AreBelow (2 ^ 128) (branch_at self.now.queries q b).fields }
    {
        are_wide(self.branch(q, b).schemas.as_slice())
    }

    /// The columns of the rows that come to an operator of a branch; for `op` the number of operators, those at its end.
    pub fn schema(&self, q: u32, b: u32, op: u32) -> Schema
        requires query { q < length self.now.queries }
        requires branch { b < length (query_at self.now.queries q).branches }
        requires op { op ≤ length (branch_at self.now.queries q b).ops }
        ensures { result ≡ schema_at (branch_at self.now.queries q b).schemas op }
    {
        match self.branch(q, b).schemas.as_slice().get(op as usize) {
            Some(schema) => *schema,
            None => Schema::new(),
        }
    }

    /// The columns of a query's answers.
    pub fn final_schema(&self, q: u32) -> Schema
        requires { q < length self.now.queries }
        ensures { result ≡ final_columns (query_at self.now.queries q) }
    {
        let query = self.query(q);
        match query.schemas.as_slice().get(query.posts.as_slice().len()) {
            Some(schema) => *schema,
            None => Schema::new(),
        }
    }

    /// An operator of a branch.
    pub fn op(&self, q: u32, b: u32, i: u32) -> &TOp
        requires query { q < length self.now.queries }
        requires branch { b < length (query_at self.now.queries q).branches }
        requires op { i < length (branch_at self.now.queries q b).ops }
        ensures { result.now ≡ operator_at (branch_at self.now.queries q b).ops i }
    {
        match self.branch(q, b).ops.as_slice().get(i as usize) {
            Some(op) => op,
            None => unreachable!(),
        }
    }

    /// The operators of a branch, 1 to 12.
    pub fn operators(&self, q: u32, b: u32) -> &[TOp]
        requires query { q < length self.now.queries }
        requires branch { b < length (query_at self.now.queries q).branches }
        ensures { result.now ≡ (branch_at self.now.queries q b).ops }
    {
        self.branch(q, b).ops.as_slice()
    }

    /// How many operators stand after the join of a query, 0 to 12.
    pub fn posts(&self, q: u32) -> u32
        requires { q < length self.now.queries }
        ensures { result ≡ length (query_at self.now.queries q).posts }
    {
        self.query(q).posts.as_slice().len() as u32
    }

    /// An operator after the join of a query.
    pub fn post(&self, q: u32, i: u32) -> &TOp
        requires query { q < length self.now.queries }
        requires post { i < length (query_at self.now.queries q).posts }
        ensures { result.now ≡ operator_at (query_at self.now.queries q).posts i }
    {
        match self.query(q).posts.as_slice().get(i as usize) {
            Some(op) => op,
            None => unreachable!(),
        }
    }

    /// The keys of a query's join, in the order of the join line. None where it has no join.
    pub fn join_keys(&self, q: u32) -> &[JoinKey]
        requires { q < length self.now.queries }
        ensures { result.now ≡ (query_at self.now.queries q).keys }
    {
        self.query(q).keys.as_slice()
    }

    /// The fields of a branch's packet rows, in the order of their numbers: at most eight.
    pub fn packet_fields(&self, q: u32, b: u32) -> &[Field]
        requires query { q < length self.now.queries }
        requires branch { b < length (query_at self.now.queries q).branches }
        ensures fields { result.now ≡ (branch_at self.now.queries q b).fields }
        ensures few { length result.now ≤ 8 }
    {
        self.branch(q, b).fields.as_slice()
    }

    /// The packet row of a tuple for a branch, with the refinement field masked to the level.
    pub fn packet_row<R: AnyRow>(&self, q: u32, b: u32, level: u32, tuple: &Tuple) -> R
        requires query { q < length self.now.queries }
        requires branch { b < length (query_at self.now.queries q).branches }
        requires level { list_any (nat_eq level) (query_at self.now.queries q).levels ≡ true }
        requires below { AreBelow R.Number.limit (branch_at self.now.queries q b).fields }
        ensures row { R.columns result ≡ packet_row (query_at self.now.queries q).field level (branch_at self.now.queries q b).fields tuple.now }
        ensures columns { IsOf (first_columns (branch_at self.now.queries q b)) (R.columns result) }
    {
        row_of(self.refine_field(q), level, self.packet_fields(q, b), tuple)
    }

    /// What is the same for the packet rows of a branch at a level.
    pub fn packets<'a>(&'a self, q: u32, b: u32, level: u32) -> Packets<'a>
        requires query { q < length self.now.queries }
        requires branch { b < length (query_at self.now.queries q).branches }
        requires level { list_any (nat_eq level) (query_at self.now.queries q).levels ≡ true }
        ensures refined { result.refined ≡ (query_at self.now.queries q).field }
        ensures level { result.level ≡ level }
        ensures fields { result.fields.now ≡ (branch_at self.now.queries q b).fields }
    {
        let refined = self.refine_field(q);
        Packets {
            refined,
            level,
            masking: masking(refined, level),
            fields: self.packet_fields(q, b),
        }
    }

    /// `packet_row`, of which no row is made. For one tuple: `packets` serves many.
    pub fn packet<'a, N: Number>(
        &'a self,
        q: u32,
        b: u32,
        level: u32,
        tuple: &'a Tuple,
    ) -> PacketRow<'a, N>
        requires query { q < length self.now.queries }
        requires branch { b < length (query_at self.now.queries q).branches }
        requires level { list_any (nat_eq level) (query_at self.now.queries q).levels ≡ true }
        requires below { AreBelow N.limit (branch_at self.now.queries q b).fields }
        ensures row { result ≡ packet_row (query_at self.now.queries q).field level (branch_at self.now.queries q b).fields tuple.now }
        ensures columns { IsOf (first_columns (branch_at self.now.queries q b)) result }
    {
        self.packets(q, b, level).row(tuple)
    }

    /// An equal value.
    pub fn copy(&self) -> Result<Typed, Memory>
        ensures window { IfOk result (λ copied. copied.window_us ≡ self.now.window_us) }
        ensures queries { IfOk result (λ copied. copied.queries ≡ self.now.queries) }
    {
        let queries = copy_queries(self.alloc, self.queries.as_slice())?;
        Ok(Typed {
            alloc: self.alloc,
            window_us: self.window_us,
            seed: self.seed,
            queries,
        })
    }
}
