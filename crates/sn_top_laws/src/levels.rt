//! Level 0 changes nothing.
ghost use Rattle.std.specs.Prelude.{◌≡◌, ℕ, List, map, Option, slice_index};
ghost use Rattle.sn_fields.specs.Fields.{number_of};
ghost use Rattle.sn_fields.specs.declared.field.Field.{Field};
ghost use Rattle.sn_types.specs.Typed.{packet_row};

/// At level 0 a packet's row has the numbers of its tuple as they are, whatever field is refined.
pub fn level_0_masks_nothing()
    ensures { (refined : Option Field) (fields : List Field) (tuple : List ℕ) →
        packet_row refined 0 fields tuple ≡ map (λ f. slice_index tuple (number_of f)) fields }
{}
