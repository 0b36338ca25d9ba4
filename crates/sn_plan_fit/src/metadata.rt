//! The metadata of pieces.
ghost use Rattle.std.specs.Prelude.{◌≡◌, ◌≤◌, ◌*◌, ◌^◌};
ghost use Rattle.sn_plan_fit.specs.Capped.{capped};
ghost use Rattle.sn_plan_fit.specs.Registers.{is_map_op};
ghost use Rattle.sn_plan_fit.specs.Pieces.{on_branch, piece_branch, metadata_of, entry_metadata, all_metadata};

use crate::loads::schema_at;
use crate::piece::{branch_of, prefix};
use crate::width::row_width;
use sn_plan_grammar::plan::{Entry, Piece};
use sn_types::typed_op::TOp;
use sn_types::typed_query::{TypedBranch, TypedQuery};

fn is_map_op(op: &TOp) -> bool
    ensures { result ≡ is_map_op op.now }
{
    match op {
        TOp::Map(_) => true,
        TOp::Filter(_) | TOp::Distinct | TOp::Reduce(_) => false,
    }
}

/// The metadata of a piece of a branch, in bits: the widest row after any operator before the cut, from the first map on.
pub fn piece_metadata(branch: &TypedBranch, piece: &Piece) -> u64
    ensures { result ≡ metadata_of branch.now piece.now }
{
    let ops = prefix(branch, piece.cut);
    let schemas = branch.schemas.as_slice();
    let mut mapped = false;
    let mut widest = 0;
    for (n, op) in ops.iter().enumerate() {
        mapped = mapped || is_map_op(op);
        if mapped {
            widest = row_width(&schema_at(schemas, n + 1)).max(widest);
        }
    }
    widest
}

fn query_metadata(query: &TypedQuery, piece: &Piece) -> u64
    ensures { result ≡ on_branch 0 (λ b. metadata_of b piece.now) (piece_branch query.now piece.now) }
{
    match branch_of(query, piece) {
        None => 0,
        Some(branch) => piece_metadata(branch, piece),
    }
}

fn entry_metadata(query: &TypedQuery, pieces: &[Piece]) -> u64
    ensures { result ≡ capped (entry_metadata query.now pieces.now) }
{
    let mut metadata: u64 = 0;
    for piece in pieces {
        metadata = metadata.saturating_add(query_metadata(query, piece));
    }
    metadata
}

/// The metadata of all pieces, or 2^64 - 1 where it is more.
pub(crate) fn plan_metadata(queries: &[TypedQuery], entries: &[Entry]) -> u64
    ensures { result ≡ capped (all_metadata queries.now entries.now) }
{
    let mut metadata: u64 = 0;
    let mut rest = entries;
    for query in queries {
        let Some((entry, after)) = rest.split_first() else {
            return metadata;
        };
        metadata = metadata.saturating_add(entry_metadata(query, entry.pieces.as_slice()));
        rest = after;
    }
    metadata
}
