//! What is known at a place of a query.

use sn_base::name::Name;
use sn_base::schema::Schema;
use sn_base::seq::Seq;

/// What is known where an operator stands.
#[derive(Drop)]
pub struct Scope {
    /// Whether names are columns: a map or the join stands before.
    pub mapped: bool,
    /// The names that the operators before read.
    pub read: Seq<Name>,
    /// The columns of the rows: before the first map, those of the branch's packet row.
    pub columns: Schema,
    /// In a refined query, the refinement field's name before the first map, and then that of the column that carries it.
    pub carried: Option<Name>,
}
