//! The calls of the lists of a node.
use forward_list::{ForwardList, OutQueue};
use mesh_gen::{Kind, Msg, MsgKind};

#[test]
fn a_drained_list_queues_its_words_in_order(rt: HostRuntime) {
    let words = [5, 2, 3, 4];
    let data = |to: u8| Msg {
        to,
        kind: MsgKind::Data,
        line: 0,
        words,
    };
    let mut list = ForwardList::new();
    list.add(1, Kind::GetS);
    assert_eq!(rt; list.ends_in_getm(), false);
    list.add(3, Kind::GetM);
    assert_eq!(rt; list.ends_in_getm(), true);
    let mut out = OutQueue::new();
    list.drain_with(0, words, &mut out);
    assert_eq!(rt; list.is_empty(), true);
    assert_eq!(rt; out.front(), Some(data(1)));
    out.pop();
    assert_eq!(rt; out.front(), Some(data(3)));
    assert_eq!(rt; out.holds_back(), false);
    out.push(Msg {
        to: 2,
        kind: MsgKind::Back,
        line: 7,
        words,
    });
    assert_eq!(rt; out.holds_back(), true);
    out.pop();
    out.pop();
    assert_eq!(rt; out.front(), None);
}
