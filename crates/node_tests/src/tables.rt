//! The calls of the miss table.
use chip_model::Pending;
use mesh_gen::Kind;
use miss_table::{BackLook, DemandLook, Look, MissTable};
use report_text::AccessKind;

const PENDING: Pending = Pending {
    kind: AccessKind::Add,
    address: 5,
    value: 9,
};

const NOTHING: Look = Look {
    demand: None,
    back: None,
};

#[test]
#[tactic(auto, unfolding(chip_model::specs::Misses::marked_sent, chip_model::specs::Misses::wanted))]
fn a_demand_keeps_what_comes_for_it(rt: HostRuntime) {
    let mut table = MissTable::new();
    assert_eq!(rt; table.look(), NOTHING);
    assert_eq!(rt; table.wanted(), None);
    table.start_demand(Kind::GetM, 1, PENDING);
    assert_eq!(rt; table.wanted(), Some((Kind::GetM, 1)));
    table.mark_sent();
    assert_eq!(rt; table.wanted(), None);
    table.put_early([1, 2, 3, 4]);
    table.order_at(7);
    table.append(2, Kind::GetS);
    table.append(3, Kind::GetM);
    let demand = DemandLook {
        kind: Kind::GetM,
        line: 1,
        pending: PENDING,
        sent: true,
        ordered: Some(7),
        early: Some([1, 2, 3, 4]),
        once: false,
        list_empty: false,
        ends_in_getm: true,
    };
    assert_eq!(rt; table.look().demand, Some(demand));
    assert_eq!(rt; table.finish_demand().ends_in_getm(), true);
    assert_eq!(rt; table.look(), NOTHING);
}

#[test]
#[tactic(auto, unfolding(chip_model::specs::Misses::marked_sent, chip_model::specs::Misses::wanted))]
fn a_write_back_becomes_stale(rt: HostRuntime) {
    let mut table = MissTable::new();
    table.start_back(6, [4, 3, 2, 1]);
    assert_eq!(rt; table.wanted(), Some((Kind::PutM, 6)));
    table.mark_sent();
    table.make_stale();
    let back = BackLook {
        line: 6,
        words: [4, 3, 2, 1],
        live: false,
        sent: true,
    };
    assert_eq!(rt; table.look().back, Some(back));
    table.finish_back();
    assert_eq!(rt; table.look(), NOTHING);
}

#[test]
#[tactic(auto, unfolding(chip_model::specs::Misses::marked_sent, chip_model::specs::Misses::wanted))]
fn a_write_back_is_wanted_before_a_demand(rt: HostRuntime) {
    let mut table = MissTable::new();
    table.start_demand(Kind::GetS, 1, PENDING);
    table.start_back(6, [4, 3, 2, 1]);
    assert_eq!(rt; table.wanted(), Some((Kind::PutM, 6)));
    table.mark_sent();
    assert_eq!(rt; table.wanted(), Some((Kind::GetS, 1)));
    table.mark_sent();
    assert_eq!(rt; table.wanted(), None);
    table.finish_back();
    table.order_at(0);
    table.set_once();
    assert_eq!(rt; table.look().demand.is_some_and(|demand| demand.once), true);
}
