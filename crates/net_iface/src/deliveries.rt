ghost use Rattle.std.specs.Prelude.{◌≡◌, List, Some};
ghost use Rattle.mesh_gen.specs.Routes.{HasTiles};
ghost use Rattle.chip_model.specs.Chip.{Chip};
ghost use Rattle.net_iface.specs.NetworkRuns.{NetworkCall, History, opening_history, history_of, DeliverPrefixes};
ghost use Rattle.net_iface.specs.OneOrder.{IsOneOrder};

use router_xy::step_laws;

/// The laws of deliveries, over every list of calls on every chip with tiles: the requests that each tile delivered are,
/// one by one, a prefix of the order, and in that order each request stands once. At run time it does nothing.
pub fn delivery_laws()
    ensures prefixes { (chip : Chip) (calls : List NetworkCall) (h : History) → HasTiles chip.grid
        → history_of chip (opening_history chip) calls ≡ Some h → DeliverPrefixes chip h }
    ensures one_order { (chip : Chip) (calls : List NetworkCall) (h : History) → HasTiles chip.grid
        → history_of chip (opening_history chip) calls ≡ Some h → IsOneOrder chip h.network }
{
    step_laws();
}
