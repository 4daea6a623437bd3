use std::marker::Brand;

/// Names the machine at the start of a round, in contracts alone, so that the type of the round's fabric can say what was done
/// since.
pub(crate) trait Start {
    ghost use Rattle.tile_pool.specs.Start.{RoundStart};

    ghost start: { RoundStart };
}

// The call that begins a round chooses the start.
impl Start for Brand {
    ghost use Rattle.tile_pool.specs.Start.{no_start};

    ghost start = { no_start };
}
