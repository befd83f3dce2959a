//! Facts about the image that the crates above cite.
ghost use Rattle.std.specs.Prelude.{◌≡◌, ℕ, ◌+◌, ◌<◌, ℤ, pos, ◌+ℤ◌, ◌*ℤ◌, None, List, ◌∷◌, ◌++◌, length, slice_index};
ghost use Rattle.std.specs.List.{All};
ghost use Rattle.std.specs.Int.{w32, w64, cast_signed, from_be_bytes};
ghost use Rattle.s390x_buffer.specs.declared.entries.RelocEntry.{RelocEntry};
ghost use Rattle.s390x_image.specs.Symbols.{Symbols};
ghost use Rattle.s390x_image.specs.Fields.{LiesIn, IsOutside, field_length, field_bytes, half_field, target_field, with_fields_filled};
ghost use Rattle.s390x_base.specs.declared.ir.ExternalName.{ExternalName};
ghost use Rattle.s390x_base.specs.declared.ir.Reloc.TheVariants.{S390xPCRel32Dbl};
ghost use Rattle.s390x_image.specs.Causes.{relative_cause, absolute_cause, reloc_cause};
ghost use Rattle.s390x_image.specs.ReadingBack.{LeadsTo};
ghost use Rattle.s390x_image.specs.Values.{symbol_value, symbol_distance};

/// A byte of a relocation's field is that of the field where no later relocation has it.
pub fn fields_stand()
    ensures { (base : ℕ) (table : Symbols) (earlier : List RelocEntry) (r : RelocEntry)
        (later : List RelocEntry) (bytes : List ℕ) (j : ℕ)
        → All (LiesIn (length bytes)) (earlier ++ r ∷ later) → j < field_length r.kind
        → All (IsOutside (r.offset + j)) later
        → slice_index (with_fields_filled base table (earlier ++ r ∷ later) bytes) (r.offset + j)
        ≡ slice_index (field_bytes base table r) j }
{}

/// The signed word at a relative field, doubled, is symbol plus addend less the field's address.
pub fn relative_fields_read_back()
    ensures { (target distance : ℤ) → relative_cause target distance ≡ None
        → (pos 2 *ℤ cast_signed w32 (from_be_bytes w32 (half_field distance))) ≡ distance }
{}

/// The doubleword at an absolute field is symbol plus addend.
pub fn absolute_fields_read_back()
    ensures { (target : ℤ) → absolute_cause target ≡ None
        → pos (from_be_bytes w64 (target_field target)) ≡ target }
{}

/// Where the field can be filled that stands two bytes behind an instruction's beginning, twice what it holds, as a signed
/// word, leads from there to the symbol plus the offset.
pub fn relative_distances_lead()
    ensures { (base : ℕ) (table : Symbols) (origin : ℕ) (name : ExternalName) (offset : ℤ)
        → reloc_cause base table
        (record {
          offset = origin + 2;
          kind = S390xPCRel32Dbl;
          name = name;
          addend = offset +ℤ pos 2;
        }) ≡ None
        → LeadsTo (base + origin) (symbol_distance base table origin name offset)
        (symbol_value table name offset) }
{}
