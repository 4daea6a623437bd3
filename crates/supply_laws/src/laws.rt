ghost use Rattle.std.specs.Prelude.{◌≡◌, ℕ, List, Some, slice_get};
ghost use Rattle.report_text.specs.declared.event.Event.{Event};
ghost use Rattle.doc_text.specs.Doc.{Doc};
ghost use Rattle.chip_model.specs.Chip.{chip_of};
ghost use Rattle.chip_model.specs.Misses.{Demand};
ghost use Rattle.chip_model.specs.Units.{UnitState, Behaviour};
ghost use Rattle.chip_model.specs.ChipState.{ChipState, opening};
ghost use Rattle.chip_model.specs.Events.{step};
ghost use Rattle.chip_model.specs.BehaviourLaws.{KeepsLaws};
ghost use Rattle.chip_model.specs.ChipInvariant.{ProtocolHolds};
ghost use Rattle.chip_laws.specs.DocFits.{DocFits};
ghost use Rattle.chip_laws.specs.Meetings.{UnitsFit, ArrivalsFit};
ghost use Rattle.supply_laws.specs.OpenGets.{NoneWritesBackBefore, WaitsFor, DataAnswersGets, EachHasOneToCome, AllGetsWait};
ghost use Rattle.supply_laws.specs.HomeParts.{WordsReachMemory, HomesHold};

/// The gets that are ordered and not complete: each tile has one at most, and is answered for it alone. At run time it does
/// nothing.
pub fn get_laws()
    // No get of a tile but the one for which it waits is to come to its supplier.
    ensures one_opened { (d : Doc) → EachHasOneToCome d (opening d) }
    ensures one { (b : Behaviour) (laws : KeepsLaws b) (d : Doc) (s new : ChipState)
        (event : Event) → DocFits d → ProtocolHolds d s → UnitsFit b laws s
        → step b (chip_of d) s event ≡ Some new → EachHasOneToCome d new }

    // A tile does not write a line back after a get of its own for it that is not complete.
    ensures puts_opened { (d : Doc) → NoneWritesBackBefore (opening d) }
    ensures puts { (b : Behaviour) (laws : KeepsLaws b) (d : Doc) (s new : ChipState)
        (event : Event) → DocFits d → ProtocolHolds d s → UnitsFit b laws s → NoneWritesBackBefore s
        → step b (chip_of d) s event ≡ Some new → NoneWritesBackBefore new }

    // Data on its way is for a tile that waits for a get of its line; so what comes to a tile is what its demand waits for.
    ensures messages_opened { (d : Doc) → DataAnswersGets (opening d) }
    ensures messages { (b : Behaviour) (laws : KeepsLaws b) (d : Doc) (s new : ChipState)
        (event : Event) → DocFits d → ProtocolHolds d s → UnitsFit b laws s → DataAnswersGets s
        → step b (chip_of d) s event ≡ Some new → DataAnswersGets new }
    ensures arrive { (d : Doc) (s : ChipState)
        → ProtocolHolds d s → DataAnswersGets s → ArrivalsFit s }

    // Data that came before its request was delivered is for such a get too.
    ensures early { (d : Doc) (s : ChipState) (t : ℕ) (unit : UnitState) (demand : Demand)
        (words : List ℕ) → ProtocolHolds d s → slice_get s.units t ≡ Some unit
        → unit.node.side.misses.demand ≡ Some demand → demand.early ≡ Some words
        → WaitsFor s t demand.line }

    // No get is complete after an earlier GetM for its line that is not, or while words of the line are to reach memory.
    ensures wait_opened { (d : Doc) → AllGetsWait (opening d) }
    ensures wait { (b : Behaviour) (laws : KeepsLaws b) (d : Doc) (s new : ChipState)
        (event : Event) → DocFits d → ProtocolHolds d s → UnitsFit b laws s → NoneWritesBackBefore s
        → step b (chip_of d) s event ≡ Some new → AllGetsWait new }
{
    chip_laws::chip_network_laws();
}

/// How written-back words reach memory, and what the records at each line's home say. At run time it does nothing.
pub fn home_laws()
    // The words of each request that writes a line back reach memory, by one message.
    ensures memory_opened { (d : Doc) → WordsReachMemory (opening d) }
    ensures memory { (b : Behaviour) (laws : KeepsLaws b) (d : Doc) (s new : ChipState)
        (event : Event) → DocFits d
        → ProtocolHolds d s → UnitsFit b laws s
        → step b (chip_of d) s event ≡ Some new → WordsReachMemory new }

    // The records are fresh where the order says so, and those wait at them of whom the order says so.
    ensures homes_opened { (d : Doc) → HomesHold (opening d) }
    ensures homes { (b : Behaviour) (laws : KeepsLaws b) (d : Doc) (s new : ChipState)
        (event : Event) → DocFits d
        → ProtocolHolds d s → UnitsFit b laws s → NoneWritesBackBefore s
        → step b (chip_of d) s event ≡ Some new → HomesHold new }
{
    chip_laws::chip_network_laws();
}
