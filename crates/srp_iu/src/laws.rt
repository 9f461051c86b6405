// What the grammar says of itself, for callers that read what was written. Each law is a function
// that does nothing; a caller calls it where the law is needed.
ghost use Rattle.std.specs.Prelude.{◌≡◌, ℕ, List, None};
ghost use Rattle.srp_iu.specs.Grammar.{Spells, Canon, IsWritable};
ghost use Rattle.srp_iu.specs.Refusal.{fault_of};
ghost use Rattle.srp_iu.specs.declared.unit.Iu.{Iu};

/// The canonical bytes of a unit spell that unit and no other.
pub fn canonical_bytes_spell_one()
    ensures { (bytes : List ℕ) (a b : Iu) → Canon bytes a → Spells bytes b → a ≡ b }
{}

/// Bytes spell one unit at most.
pub fn bytes_spell_one()
    ensures { (bytes : List ℕ) (a b : Iu) → Spells bytes a → Spells bytes b → a ≡ b }
{}

/// Bytes that spell a unit are not refused, and canonical bytes spell their unit.
pub fn spelled_bytes_are_read()
    ensures spelled { (bytes : List ℕ) (iu : Iu) → Spells bytes iu → fault_of bytes ≡ None }
    ensures canonical { (bytes : List ℕ) (iu : Iu) → Canon bytes iu → Spells bytes iu }
{}

/// A unit that bytes spell can be written.
pub fn spelled_units_are_writable()
    ensures { (bytes : List ℕ) (iu : Iu) → Spells bytes iu → IsWritable iu }
{}
