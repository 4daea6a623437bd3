ghost use Rattle.std.specs.Prelude.{◌≡◌, ◌+◌, ◌≤◌, ◌++◌, ◌∷◌, [], ℕ, List, Some, true, false};
ghost use Rattle.std.specs.Prelude.{slice_get, take};
ghost use Rattle.std.specs.List.{AllByRecursion};
ghost use Rattle.report_text.specs.declared.access.Access.{Access};
ghost use Rattle.doc_text.specs.Doc.{Doc};
ghost use Rattle.flat_ref.specs.Execution.{IsExecution, IsWholeExecution, flat_memory};
ghost use Rattle.chip_model.specs.declared.owner.Owner.{Owner};
ghost use Rattle.chip_model.specs.Chip.{line_of};
ghost use Rattle.chip_model.specs.Units.{UnitState};
ghost use Rattle.chip_model.specs.ChipState.{ChipState, finished};
ghost use Rattle.chip_model.specs.Ownership.{writer};
ghost use Rattle.chip_model.specs.Witness.{is_before, is_write, writes_by, with_write, line_value};
ghost use Rattle.chip_model.specs.Witness.{witness};
ghost use Rattle.chip_model.specs.Writers.{latest_time};
ghost use Rattle.chip_model.specs.Values.{HasValue, HasOwnValue};
ghost use Rattle.chip_model.specs.Reports.{final_memory};
ghost use Rattle.chip_model.specs.ChipInvariant.{ProtocolHolds};
ghost use Rattle.chip_laws.specs.DocFits.{DocFits};
ghost use Rattle.value_laws.specs.Sequences.{Succeeds, AreSucceeding};
ghost use Rattle.value_laws.specs.CoreRuns.{steps_done};
ghost use Rattle.value_laws.specs.Reads.{AccessesHold};

/// What the invariant of a chip of in-order cores says of its accesses, in every state in which it
/// holds. At run time it does nothing.
pub fn sequence_laws()
    // The witness is a sequential execution of the first steps of the programs.
    ensures execution { (d : Doc) (s : ChipState) → DocFits d → AccessesHold d s
        → IsExecution d.programs d.memory (witness s) (steps_done s) }

    // In a finished state it is one of the whole programs, and leaves the final memory.
    ensures whole { (d : Doc) (s : ChipState) → DocFits d → AccessesHold d s → finished s ≡ true
        → IsWholeExecution d.programs d.memory (witness s) (steps_done s) }
    ensures memory { (d : Doc) (s : ChipState) → DocFits d → AccessesHold d s → finished s ≡ true
        → flat_memory d.programs d.memory (witness s) ≡ Some (final_memory d s) }
{
    core_isa::core_laws();
}

/// What one more access makes of the value of a line at a place of the order, and what going on to
/// the next place does. At run time it does nothing.
pub fn value_laws()
    // An access that is no write to the line up to the place changes nothing; the last such write
    // changes its word.
    ensures kept { (d : Doc) (accesses : List Access) (a : Access) (line place : ℕ)
        → AllByRecursion (λ b. Succeeds b a) accesses → writes_by line place a ≡ false
        → line_value d (accesses ++ a ∷ []) line place ≡ line_value d accesses line place }
    ensures written { (d : Doc) (accesses : List Access) (a : Access) (line place : ℕ)
        → AreSucceeding accesses → AllByRecursion (λ b. Succeeds b a) accesses
        → writes_by line place a ≡ true
        → AllByRecursion (λ b. writes_by line place b ≡ true → is_before b a ≡ true) accesses
        → line_value d (accesses ++ a ∷ []) line place
        ≡ with_write (line_value d accesses line place) a }

    // Where no write to the line has the time of the next place, the value there is the same.
    ensures next { (d : Doc) (accesses : List Access) (line place : ℕ)
        → AllByRecursion
        (λ a. is_write a ≡ true → line_of a.address ≡ line → a.time ≡ place + 1 → ⊥) accesses
        → line_value d accesses line (place + 1) ≡ line_value d accesses line place }

    // Where no tile may write the line at the next place, words keep their value there, which no
    // write to come changes; where one may, which has performed nothing then, its own words do.
    ensures passes { (d : Doc) (s : ChipState) (line place : ℕ) (words : List ℕ)
        → ProtocolHolds d s → writer line (take (place + 1) s.network.ordered) ≡ Owner.Memory
        → HasValue d s line place words → HasValue d s line (place + 1) words }
    ensures own_passes { (d : Doc) (s : ChipState) (t line place : ℕ) (unit : UnitState)
        (words : List ℕ) → ProtocolHolds d s → slice_get s.units t ≡ Some unit
        → writer line (take (place + 1) s.network.ordered) ≡ Owner.Tile t
        → latest_time unit.node ≤ place → HasOwnValue d s t line place words
        → HasOwnValue d s t line (place + 1) words }
{}
