//! The calls of a memory controller.
ghost use Rattle.std.specs.Prelude.{◌≡◌, [], ◌∷◌, IfOk};
ghost use Rattle.chip_model.specs.Records.{opening_record};

use forward_list::OutQueue;
use mem_ctrl::{Controller, Owner};
use mesh_gen::{Items, Kind, Mesh, Msg, MsgKind, NoMemory, Request, Words};
use std::alloc::Global;
use std::test::Fail;

const BACK: Words = [5, 2, 3, 4];

// The controller of the last of four tiles, which keeps the only line.
fn open(alloc: Global) -> Result<Controller, NoMemory>
    ensures { IfOk result (λ controller. controller ≡ Some (opening_record (1 ∷ 2 ∷ 3 ∷ 4 ∷ []))
        ∷ []) }
{
    let mut mesh = Mesh::of_size(alloc, 2, 2, 2)?;
    mesh.lines = 1;
    mesh.controllers = Items::new(Vec::from_slice(alloc, &[3])?);
    Controller::open(alloc, &mesh, 3, &[1, 2, 3, 4])
}

fn request(source: u8, kind: Kind) -> Request
    ensures { result ≡ record { source = source; number = 0; kind = kind; line = 0 } }
{
    Request {
        source,
        number: 0,
        kind,
        line: 0,
    }
}

fn data(to: u8, words: Words) -> Option<Msg> {
    Some(Msg {
        to,
        kind: MsgKind::Data,
        line: 0,
        words,
    })
}

#[test]
#[tactic(auto, unfolding(chip_model::specs::Records::answered, chip_model::specs::Records::back_arrived))]
fn words_come_back_before_the_put(rt: HostRuntime) -> Result<(), Fail> {
    let mut controller = open(rt.alloc())?;
    let mut out = OutQueue::new();
    controller.on_request(request(0, Kind::GetM), &mut out);
    assert_eq!(rt; out.front(), data(0, [1, 2, 3, 4]));
    assert_eq!(rt;
        controller.home_record(0),
        Some((Owner::Tile(0), [1, 2, 3, 4], false))
    );
    let mut out = OutQueue::new();
    controller.on_back(0, BACK, &mut out);
    assert_eq!(rt;
        controller.home_record(0),
        Some((Owner::Tile(0), BACK, true))
    );
    controller.on_request(request(1, Kind::GetS), &mut out);
    controller.on_request(request(0, Kind::PutM), &mut out);
    assert_eq!(rt; out.front(), None);
    assert_eq!(rt;
        controller.home_record(0),
        Some((Owner::Memory, BACK, true))
    );
    controller.on_request(request(2, Kind::GetS), &mut out);
    assert_eq!(rt; out.front(), data(2, BACK));
    Ok(())
}

#[test]
#[tactic(auto, unfolding(chip_model::specs::Records::answered, chip_model::specs::Records::back_arrived))]
fn words_come_back_after_the_put(rt: HostRuntime) -> Result<(), Fail> {
    let mut controller = open(rt.alloc())?;
    let mut out = OutQueue::new();
    controller.on_request(request(0, Kind::GetM), &mut out);
    let mut out = OutQueue::new();
    controller.on_request(request(0, Kind::PutM), &mut out);
    assert_eq!(rt;
        controller.home_record(0),
        Some((Owner::Memory, [1, 2, 3, 4], false))
    );
    controller.on_request(request(1, Kind::GetS), &mut out);
    controller.on_request(request(2, Kind::GetM), &mut out);
    assert_eq!(rt; out.front(), None);
    assert_eq!(rt;
        controller.home_record(0),
        Some((Owner::Tile(2), [1, 2, 3, 4], false))
    );
    controller.on_back(0, BACK, &mut out);
    assert_eq!(rt; out.front(), data(1, BACK));
    out.pop();
    assert_eq!(rt; out.front(), data(2, BACK));
    assert_eq!(rt;
        controller.home_record(0),
        Some((Owner::Tile(2), BACK, false))
    );
    assert_eq!(rt; controller.home_record(1), None);
    Ok(())
}

#[test]
#[tactic(auto, unfolding(chip_model::specs::Records::answered, chip_model::specs::Records::back_arrived))]
fn a_stale_put_changes_nothing(rt: HostRuntime) -> Result<(), Fail> {
    let mut controller = open(rt.alloc())?;
    let mut out = OutQueue::new();
    controller.on_request(request(0, Kind::GetM), &mut out);
    let mut out = OutQueue::new();
    controller.on_request(request(2, Kind::GetM), &mut out);
    let owned = Some((Owner::Tile(2), [1, 2, 3, 4], false));
    assert_eq!(rt; controller.home_record(0), owned);
    controller.on_request(request(0, Kind::PutM), &mut out);
    assert_eq!(rt; controller.home_record(0), owned);
    assert_eq!(rt; out.front(), None);
    Ok(())
}
