ghost use Rattle.std.specs.Prelude.{◌≡◌, ◌↔◌, ℕ, true, ◌<◌, List, ◌∷◌, ◌++◌, Some, length, map, slice_index};
ghost use Rattle.core_isa.specs.declared.instr.Instr.{Instr};
ghost use Rattle.report_text.specs.declared.access.Access.{Access};
ghost use Rattle.report_text.specs.Accesses.{reads, writes, read_by};
ghost use Rattle.flat_ref.specs.declared.flat.Flat.{Flat};
ghost use Rattle.flat_ref.specs.Taking.{taken, taken_all};
ghost use Rattle.flat_ref.specs.Execution.{executed_from, executed, flat_memory, IsExecution};
ghost use Rattle.flat_ref.specs.Consistency.{IsConsistent};
ghost use Rattle.flat_ref.specs.Order.{Takes, last_written};

/// What lists of accesses that can be taken have in common, in the terms of memory models. At run time it does nothing.
pub fn order_laws()
    // What an access leaves is what the relation says.
    ensures relation { (programs : List (List Instr)) (old new : Flat) (a : Access)
        → (taken programs old a ≡ Some new) ↔ Takes programs old new a }

    // Of two accesses of one tile the first has the smaller number: a tile's accesses stand in program order.
    ensures in_order { (programs : List (List Instr)) (flat after : Flat)
        (before between rest : List Access) (a b : Access)
        → taken_all programs flat (before ++ a ∷ (between ++ b ∷ rest)) ≡ Some after
        → a.tile ≡ b.tile
        → a.number < b.number }

    // An access that reads received the value of the last write to its address before it, or else the word that was
    // there at first.
    ensures reads { (programs : List (List Instr)) (flat after : Flat) (before rest : List Access)
        (a : Access)
        → 0 < length flat.memory → taken_all programs flat (before ++ a ∷ rest) ≡ Some after
        → reads a.kind ≡ true
        → read_by a ≡ last_written a.address (slice_index flat.memory a.address) before }

    // The value of one that writes is the word from then on.
    ensures writes { (programs : List (List Instr)) (old new : Flat) (a : Access)
        → 0 < length old.memory → taken programs old a ≡ Some new → writes a.kind ≡ true
        → slice_index new.memory a.address ≡ a.value }

    // Memory then holds what was last written at each address.
    ensures memory { (programs : List (List Instr)) (flat after : Flat) (accesses : List Access)
        (address : ℕ)
        → 0 < length flat.memory → taken_all programs flat accesses ≡ Some after
        → slice_index after.memory address
        ≡ last_written address (slice_index flat.memory address) accesses }

    // An execution is a list in which each core alone makes its own accesses and reads what was written last.
    ensures parts { (programs : List (List Instr)) (memory steps : List ℕ) (accesses : List Access)
        → 0 < length memory
        → IsExecution programs memory accesses steps ↔ IsConsistent programs memory accesses steps }

    // An execution leaves each core at its number of steps, and the memory that its accesses leave.
    ensures steps { (programs : List (List Instr)) (flat after : Flat) (accesses : List Access)
        (steps : List ℕ)
        → executed_from programs flat accesses steps ≡ Some after
        → map (λ core. core.steps) after.cores ≡ steps }
    ensures flat_memory { (programs : List (List Instr)) (memory steps : List ℕ)
        (accesses : List Access) (after : Flat)
        → executed programs memory accesses steps ≡ Some after
        → flat_memory programs memory accesses ≡ Some after.memory }
{
    core_isa::core_laws();
}
