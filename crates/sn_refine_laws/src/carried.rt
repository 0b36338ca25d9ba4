//! What the refinement column of a query carries.
ghost use Rattle.std.specs.Prelude.{◌≡◌, ◌<◌, ℕ, length, List, Option, Some};
ghost use Rattle.sn_fields.specs.declared.field.Field.{Field};
ghost use Rattle.sn_ops.specs.declared.packets.Kept.{Kept};
ghost use Rattle.sn_refine_laws.specs.Carried.{CarriesField};
ghost use Rattle.sn_types.specs.Typed.{IsTyped, query_at};
ghost use Rattle.sn_types.specs.declared.typed_query.TypedQuery.{TypedQuery};

/// The refinement column of a refined query of a typed file is one of its final columns. Whatever the level, the
/// prefixes and the tuples, each row of the query has there the refinement field of a tuple that is kept, read at that
/// level: so the rows of one tuple have its own.
pub fn refinement_columns_carry_the_field()
    ensures { (window q level : ℕ) (queries : List TypedQuery) (field : Field) (kept : Option Kept) (tuples : List (List ℕ)) →
        IsTyped window queries → q < length queries → (query_at queries q).field ≡ Some field →
        CarriesField (query_at queries q) field level kept tuples }
{}
