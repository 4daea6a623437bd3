ghost use Rattle.std.specs.Prelude.{◌≡◌};

use mesh_gen::{Kind, Mesh, NotEnabled, Port, Request};
use router_xy::{Routers, step_laws};
use std::test::Fail;

// The first request of a tile.
fn first_of(source: u8) -> Request
    ensures source { result.source ≡ source }
    ensures number { result.number ≡ 0 }
{
    Request {
        source,
        number: 0,
        kind: Kind::GetM,
        line: 7,
    }
}

// One normal channel is number 0, so the reserved one is number 1. The copy in it is told by its going on from there.
#[test]
fn the_reserved_slot_takes_in_the_expected_request_alone(rt: HostRuntime) -> Result<(), Fail> {
    step_laws();
    let mesh = Mesh::of_size(rt.alloc(), 4, 1, 3)?;
    let mut routers = Routers::open(rt.alloc(), &mesh)?;
    assert_eq!(rt; routers.inject(first_of(0)), Ok(()));
    assert_eq!(rt; routers.inject(first_of(1)), Ok(()));
    let first = Some((0, 0));
    let second = Some((1, 0));
    assert_eq!(rt; routers.hop(0, Port::L, 0, Port::W, None), Err(NotEnabled));
    assert_eq!(rt; routers.hop(0, Port::L, 0, Port::E, None), Ok(()));
    assert_eq!(rt; routers.hop(0, Port::L, 0, Port::E, None), Err(NotEnabled));
    assert_eq!(rt; routers.hop(1, Port::W, 0, Port::E, None), Ok(()));
    assert_eq!(rt; routers.can_hop(1, Port::L, 0, Port::E, first), false);
    assert_eq!(rt; routers.hop(1, Port::L, 0, Port::E, first), Err(NotEnabled));
    assert_eq!(rt; routers.holds_local(2, (1, 0)), false);
    assert_eq!(rt; routers.can_hop(1, Port::L, 0, Port::E, second), true);
    assert_eq!(rt; routers.can_hop(2, Port::W, 1, Port::E, None), false);
    assert_eq!(rt; routers.hop(1, Port::L, 0, Port::E, second), Ok(()));
    assert_eq!(rt; routers.holds_local(2, (1, 0)), true);
    assert_eq!(rt; routers.hop(2, Port::W, 1, Port::E, None), Ok(()));
    assert_eq!(rt; routers.holds_local(3, (1, 0)), true);
    assert_eq!(rt; routers.serve_local(3, (1, 0)), Ok(first_of(1)));
    assert_eq!(rt; routers.serve_local(3, (1, 0)), Err(NotEnabled));
    Ok(())
}
