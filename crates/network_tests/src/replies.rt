use mesh_gen::{Mesh, Msg, MsgKind, NoChannel, NotEnabled, Port};
use reply_net::Replies;
use std::test::Fail;

#[test]
fn a_message_goes_by_its_row_and_then_by_its_column(rt: HostRuntime) -> Result<(), Fail> {
    let mesh = Mesh::of_size(rt.alloc(), 2, 2, 2)?;
    let mut replies = Replies::open(rt.alloc(), &mesh)?;
    let to_the_corner = Msg {
        to: 3,
        kind: MsgKind::Data,
        line: 3,
        words: [0, 0, 0, u32::MAX],
    };
    assert_eq!(rt; replies.tiles(), 4);
    assert_eq!(rt; replies.can_inject(0, to_the_corner), true);
    assert_eq!(rt; replies.inject(0, to_the_corner), Ok(()));
    assert_eq!(rt; replies.tiles(), 4);
    assert_eq!(rt; replies.inject(0, to_the_corner), Err(NoChannel));
    assert_eq!(rt; replies.eject(0, Port::L, 0), Err(NotEnabled));
    assert_eq!(rt; replies.hop(0, Port::L, 0), Ok(()));
    assert_eq!(rt; replies.can_hop(1, Port::W, 0), true);
    assert_eq!(rt; replies.hop(1, Port::W, 0), Ok(()));
    assert_eq!(rt; replies.hop(3, Port::N, 0), Err(NotEnabled));
    assert_eq!(rt; replies.is_empty(), false);
    assert_eq!(rt; replies.can_eject(3, Port::N, 0), true);
    assert_eq!(rt; replies.eject(3, Port::N, 0), Ok(to_the_corner));
    assert_eq!(rt; replies.is_empty(), true);
    let ranks = [
        mesh.rank(0, Port::L),
        mesh.rank(1, Port::W),
        mesh.rank(3, Port::N),
    ];
    assert_eq!(rt; ranks, [4, 2, 0]);
    Ok(())
}
