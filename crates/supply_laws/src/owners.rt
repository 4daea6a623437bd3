ghost use Rattle.std.specs.Prelude.{◌≡◌, ◌⊎◌, ℕ, ◌<◌, List, take};
ghost use Rattle.mesh_gen.specs.declared.request.Request.{Request};
ghost use Rattle.doc_text.specs.Doc.{Doc};
ghost use Rattle.chip_model.specs.declared.owner.Owner.TheVariants.{Memory, Tile};
ghost use Rattle.chip_model.specs.Chip.{chip_of, tile_count};
ghost use Rattle.chip_model.specs.ChipState.{ChipState};
ghost use Rattle.chip_model.specs.Ownership.{owner};
ghost use Rattle.chip_model.specs.ChipInvariant.{ProtocolHolds};
ghost use Rattle.chip_laws.specs.DocFits.{DocFits};
ghost use Rattle.supply_laws.specs.OwnerGets.{NoneFrom, OwnerGet, LastBack};

/// Since when the owner of a line, to which a get of the line goes, has owned it. At run time it does nothing.
pub fn owner_laws()
    // A tile has since its last GetM: none asked to write the line after it, and none wrote it back.
    ensures tile { (line v below : ℕ) (ordered : List Request)
        → owner line (take below ordered) ≡ Tile v → OwnerGet line v below ordered }

    // Memory has since the last write-back, or from the start.
    ensures memory { (line below : ℕ) (ordered : List Request)
        → owner line (take below ordered) ≡ Memory
        → LastBack line below ordered ⊎ NoneFrom line 0 below ordered }

    // Where the protocol's invariant holds, a tile that owns a line is one of the chip.
    ensures inside { (d : Doc) (s : ChipState) (line v : ℕ) → DocFits d → ProtocolHolds d s
        → owner line s.network.ordered ≡ Tile v → v < tile_count (chip_of d) }
{}
