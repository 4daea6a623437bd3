//! Sets of tiles as words, whose bit t stands for tile t.

ghost use Rattle.std.specs.Prelude.{◌≡◌, ◌==◌, ◌&&◌, ◌<◌, ◌≤◌, ℕ, not};
ghost use Rattle.mesh_gen.specs.TileSet.{has_tile};
ghost use Rattle.order_tracker.specs.FirstFrom.{IsFirstFrom};

/// The first tile of the set, upwards from a tile and then from tile 0 on.
pub(crate) fn first_from(set: u64, first: u8) -> u8
    requires some { 0 < set }
    requires fits { first < 64 }
    ensures { IsFirstFrom set first result }
{
    let later = set & (u64::MAX << first);
    let next = if later == 0 { set } else { later };
    next.trailing_zeros() as u8
}

/// The set without a tile.
pub(crate) fn without(set: u64, t: u8) -> u64
    requires { t < 64 }
    ensures tiles { (u : ℕ) → has_tile result u ≡ (has_tile set u && not (u == t)) }
    ensures within { result ≤ set }
{
    set & !(1 << t)
}
