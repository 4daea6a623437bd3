use mesh_gen::Port;
use vc_bank::Bank;

#[test]
fn the_lowest_free_slot_is_taken_first(rt: HostRuntime) {
    let mut bank: Bank<u8> = Bank::new(2, true);
    assert_eq!(rt; bank.lowest_free(Port::E), Some(0));
    bank.put(Port::E, 0, 10);
    bank.put(Port::E, 1, 11);
    assert_eq!(rt; bank.lowest_free(Port::E), None);
    assert_eq!(rt; bank.reserved_free(Port::E), true);
    bank.put(Port::E, 2, 12);
    assert_eq!(rt; bank.reserved_free(Port::E), false);
    bank.replace(Port::E, 1, 21);
    assert_eq!(rt; bank.remove(Port::E, 0), 10);
    assert_eq!(rt; bank.lowest_free(Port::E), Some(0));
    let slots = [0, 1, 2, 3].map(|slot| bank.at(Port::E, slot));
    assert_eq!(rt; slots, [None, Some(21), Some(12), None]);
    assert_eq!(rt; bank.lowest_free(Port::W), Some(0));
    assert_eq!(rt; bank.reserved_free(Port::L), false);
}
