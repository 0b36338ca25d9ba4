//! Queries whose names are resolved.

use crate::typed_op::{JoinKey, TOp};
use sn_base::name::Name;
use sn_base::schema::Schema;
use sn_base::seq::Seq;
use sn_fields::field::Field;

/// A branch.
#[derive(Drop)]
pub struct TypedBranch {
    /// The fields of its packet rows, in the order of their numbers.
    pub fields: Seq<Field>,
    pub ops: Seq<TOp>,
    /// The columns before each operator, and those after the last one.
    pub schemas: Seq<Schema>,
    /// The greatest cut.
    pub max_cut: u32,
}

/// A query.
#[derive(Drop)]
pub struct TypedQuery {
    pub name: Name,
    /// The refinement field.
    pub field: Option<Field>,
    /// The place of the refinement column in the final rows.
    pub column: Option<u32>,
    /// The levels, rising. A query that isn't refined has the one level 0.
    pub levels: Seq<u32>,
    /// One branch, or two that are joined.
    pub branches: Seq<TypedBranch>,
    pub keys: Seq<JoinKey>,
    /// The operators after the join.
    pub posts: Seq<TOp>,
    /// The columns before each of these, and the final ones.
    pub schemas: Seq<Schema>,
}
