ghost use Rattle.std.specs.Prelude.{◌≡◌, ℕ, ◌<◌, true, List, Some, slice_get};
ghost use Rattle.mesh_gen.specs.declared.request.Request.{Request};
ghost use Rattle.doc_text.specs.Doc.{Doc};
ghost use Rattle.chip_model.specs.Chip.{Chip, chip_of, tile_count, home};
ghost use Rattle.chip_model.specs.Cache.{lookup};
ghost use Rattle.chip_model.specs.Units.{UnitState};
ghost use Rattle.chip_model.specs.ChipState.{ChipState, is_done};
ghost use Rattle.chip_model.specs.Ownership.{owns, is_owned_copy, delivered_to};
ghost use Rattle.chip_model.specs.ChipInvariant.{ProtocolHolds};
ghost use Rattle.chip_laws.specs.DocFits.{ChipFits, DocFits};
ghost use Rattle.chip_laws.specs.DoneUnits.{IsDone};
ghost use Rattle.chip_laws.specs.Tiles.{TileOf};

/// The tiles of a chip, where the protocol's invariant holds. At run time it does nothing.
pub fn tile_laws()
    // Each has an interface and a unit, of which all holds that holds of such; and a unit is that of a tile.
    ensures has { (d : Doc) (s : ChipState) (t : ℕ) → ProtocolHolds d s
        → t < tile_count (chip_of d) → TileOf d s t }
    ensures units { (d : Doc) (s : ChipState) (t : ℕ) (unit : UnitState) → ProtocolHolds d s
        → slice_get s.units t ≡ Some unit → t < tile_count (chip_of d) }

    // An ordered request is of a tile, and the home of a line is at one.
    ensures sources { (d : Doc) (s : ChipState) (place : ℕ) (q : Request) → DocFits d
        → ProtocolHolds d s → slice_get s.network.ordered place ≡ Some q
        → q.source < tile_count (chip_of d) }
    ensures homes { (chip : Chip) (line : ℕ) → ChipFits chip → home chip line < tile_count chip }
{}

/// The units of a finished chip. At run time it does nothing.
pub fn done_laws()
    // One that is done has halted, waits for nothing and sends nothing.
    ensures done { (ordered : List Request) (unit : UnitState)
        → is_done ordered unit ≡ true → IsDone ordered unit }

    // The requests that were delivered to it are the whole order.
    ensures whole { (ordered : List Request) (unit : UnitState)
        → IsDone ordered unit → delivered_to ordered unit.node ≡ ordered }

    // It owns lines by its copies alone.
    ensures copies { (ordered : List Request) (unit : UnitState) (line : ℕ)
        → IsDone ordered unit → owns unit.node.chip unit.node.side line
        ≡ is_owned_copy (lookup unit.node.chip unit.node.side.cache line) }
{}
