//! Sets of tiles as words, whose bit t stands for tile t.
ghost use Rattle.std.specs.Prelude.{◌≡◌, ◌<◌, ◌^◌, bit_or};
ghost use Rattle.std.specs.List.{All};
ghost use Rattle.mesh_gen.specs.TileSet.{has_tile, set_of};

/// Whether a tile is in a set of tiles, a word whose bit t stands for tile t.
#[tactic(auto, using(std::proofs::lemmas::Nat::Bits::shr_and_one), unfolding(crate::specs::TileSet::has_tile))]
pub fn has_tile(set: u64, t: u8) -> bool
    requires { t < 64 }
    ensures { result ≡ has_tile set t }
{
    (set >> t) & 1 == 1
}

/// The set with a tile more.
pub fn with_tile(set: u64, t: u8) -> u64
    requires { t < 64 }
    ensures { result ≡ bit_or (2 ^ t) set }
{
    (1 << t) | set
}

/// The set of the tiles of a list.
pub fn set_of(tiles: &[u8]) -> u64
    requires { All (λ t. t < 64) tiles.now }
    ensures { result ≡ set_of tiles.now }
{
    let mut set = 0;
    for &tile in tiles {
        set = with_tile(set, tile);
    }
    set
}
