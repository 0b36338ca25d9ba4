//! Which branches have rows with columns of more than 64 bits.
ghost use Rattle.std.specs.Prelude.{◌≡◌};
ghost use Rattle.std.specs.List.{list_any};
ghost use Rattle.sn_types.specs.Kinds.{has_wide_column};

use sn_base::column::Column;
use sn_base::schema::Schema;

/// The bits of a column of a short row.
const SHORT_BITS: u32 = 64;

fn has_wide_column(columns: &[Column]) -> bool
    ensures { result ≡ has_wide_column columns.now }
{
    columns.iter().any(|column| SHORT_BITS < column.width)
}

/// Whether one of these schemas has a column of more than 64 bits.
pub(crate) fn are_wide(schemas: &[Schema]) -> bool
    ensures { result ≡ list_any has_wide_column schemas.now }
{
    schemas
        .iter()
        .any(|schema| has_wide_column(schema.as_slice()))
}
