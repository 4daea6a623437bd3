use mesh_gen::{Kind, Mesh, NoChannel, NotEnabled, Port};
use net_iface::OrderedNet;
use std::test::Fail;

// A tick passes, where the order has room for what it may order.
fn tick(net: &mut OrderedNet) -> Result<(), NotEnabled> {
    if net.spare() < u64::from(net.tiles()) {
        return Err(NotEnabled);
    }
    net.tick()
}

#[test]
fn calls_are_refused_where_they_cannot_be_done(rt: HostRuntime) -> Result<(), Fail> {
    let mesh = Mesh::of_size(rt.alloc(), 2, 1, 2)?;
    let mut net = OrderedNet::open(rt.alloc(), &mesh, 4)?;
    assert_eq!(rt; net.inject(2, Kind::GetM, 5), Err(NoChannel));
    assert_eq!(rt; net.post(0), Err(NotEnabled));
    assert_eq!(rt; tick(&mut net), Err(NotEnabled));
    assert_eq!(rt; net.take(0), Err(NotEnabled));
    assert_eq!(rt; net.eject(0), Err(NotEnabled));
    assert_eq!(rt; net.hop(0, Port::L, 0, Port::E), Err(NotEnabled));
    let first = net.inject(0, Kind::GetM, 5).ok();
    assert_eq!(rt;
        first.map(|q| (q.source, q.number, q.line)),
        Some((0, 0, 5))
    );
    assert_eq!(rt; net.inject(0, Kind::GetM, 6), Err(NoChannel));
    assert_eq!(rt; net.can_hop(0, Port::L, 0, Port::E), true);
    assert_eq!(rt; net.hop(0, Port::L, 0, Port::E), Ok(()));
    assert_eq!(rt; net.can_eject(0), false);
    assert_eq!(rt; net.order().len(), 0);
    Ok(())
}
