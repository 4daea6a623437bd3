ghost use Rattle.std.specs.Prelude.{◌≡◌};
ghost use Rattle.doc_text.specs.Doc.{Doc};
ghost use Rattle.chip_model.specs.OrderedNetwork.{OrderedNetwork};
ghost use Rattle.chip_model.specs.Delivery.{DeliversPosts};
ghost use Rattle.broadcast.specs.Whole.{CanBroadcast, IsWhole};

use flow_laws::request_progress_laws;
use net_iface::network_laws;
use router_xy::copies_laws;

/// The laws of broadcasts. At run time it does nothing.
pub fn broadcast_laws()
    // Passes until nothing moves lead to one network, however many there are.
    ensures one { (d : Doc) (a b : OrderedNetwork)
        → DeliversPosts d a → DeliversPosts d b → a ≡ b }

    // In it every post is ordered, and every tile has delivered the whole order.
    ensures whole { (d : Doc) (net : OrderedNetwork)
        → CanBroadcast d → DeliversPosts d net → IsWhole d net }
{
    copies_laws();
    network_laws();
    request_progress_laws();
}
