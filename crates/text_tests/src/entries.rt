//! Entries of a journal, unpacked. Their packed words are computed in `report_text`.
use mesh_gen::Port;
use report_text::{Entry, Event};

#[test]
fn a_packed_word_is_unpacked(rt: HostRuntime) {
    let event = Event::Hop {
        r: 0,
        port: Port::L,
        slot: 0,
        out: Port::E,
    };
    let hop = Entry {
        by: 0,
        cores: 0,
        event,
    };
    assert_eq!(rt; Entry::unpack(458753), Some(hop));
}

#[test]
fn a_hop_into_the_tile_is_no_entry(rt: HostRuntime) {
    assert_eq!(rt; Entry::unpack(458752), None);
}
