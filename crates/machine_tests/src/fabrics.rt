//! The calls of a fabric: one request from its injection to its delivery, one message, a hop of each, and refusals.
ghost use Rattle.std.specs.Prelude.{◌≡◌, ◌<◌, IfOk, length};
ghost use Rattle.std.specs.Bool.{OnTrue};
ghost use Rattle.chip_model.specs.Chip.{tile_count};
ghost use Rattle.fabric_core.specs.Fabric.{MayNote};

use fabric_core::{Fabric, Made};
use mesh_gen::{Kind, Mesh, Msg, MsgKind, NoMemory, NotEnabled, Port, Request};
use report_text::{Access, AccessKind};
use std::alloc::Global;
use std::test::Fail;

// A fabric of one tile, with room for 20 events.
fn one_tile(alloc: Global) -> Result<Box<Fabric>, NoMemory>
    ensures { IfOk result (λ fabric. length fabric.value.accesses < fabric.value.room) }
{
    let mesh = Mesh::of_size(alloc, 1, 1, 1)?;
    Fabric::open(alloc, &mesh, 20)
}

// The same of two tiles.
fn two_tiles(alloc: Global) -> Result<Box<Fabric>, NoMemory>
    ensures { IfOk result (λ fabric. 1 < tile_count fabric.value.chip) }
{
    let mesh = Mesh::of_size(alloc, 2, 1, 1)?;
    Fabric::open(alloc, &mesh, 20)
}

// Whether tile 0 may note an event after so many of its core.
fn may_note(fabric: &Fabric, cores: u8) -> bool
    ensures { OnTrue result (MayNote (record { by = 0; cores = cores }) fabric.now) }
{
    fabric.length();
    cores <= 16 && u64::from(cores) < fabric.spare()
}

fn tile_zero(cores: u8) -> Made
    ensures { result ≡ record { by = 0; cores = cores } }
{
    Made { by: 0, cores }
}

fn words_for(to: u8) -> Msg
    ensures { result.to ≡ to }
{
    Msg {
        to,
        kind: MsgKind::Data,
        line: 3,
        words: [1, 2, 3, 4],
    }
}

// Tile 0 makes a request after two events of its core, and posts it.
fn post_one(fabric: &mut Fabric) -> Result<(), NotEnabled> {
    if !may_note(fabric, 2) {
        return Err(NotEnabled);
    }
    fabric.inject(tile_zero(2), Kind::GetM, 3)?;
    if !may_note(fabric, 0) {
        return Err(NotEnabled);
    }
    fabric.post(tile_zero(0), 0)
}

// A window passes, and tile 0 takes its vector.
fn take_one(fabric: &mut Fabric) -> Result<(), NotEnabled> {
    if !may_note(fabric, 0) {
        return Err(NotEnabled);
    }
    fabric.tick(tile_zero(0))?;
    if !may_note(fabric, 0) {
        return Err(NotEnabled);
    }
    fabric.take(tile_zero(0), 0)
}

// Tile 0 delivers a request.
fn eject_one(fabric: &mut Fabric) -> Result<Request, NotEnabled> {
    if !may_note(fabric, 0) {
        return Err(NotEnabled);
    }
    fabric.eject(tile_zero(0), 0)
}

// Words for tile 0 enter its router.
fn send_one(fabric: &mut Fabric) -> Result<(), NotEnabled> {
    if !may_note(fabric, 0) {
        return Err(NotEnabled);
    }
    fabric.send(tile_zero(0), 0, words_for(0))
}

// A message comes to tile 0.
fn receive_one(fabric: &mut Fabric) -> Result<Msg, NotEnabled> {
    if !may_note(fabric, 0) {
        return Err(NotEnabled);
    }
    fabric.data_eject(tile_zero(0), 0, Port::L, 0)
}

// Tile 0 posts.
fn post_alone(fabric: &mut Fabric) -> Result<(), NotEnabled> {
    if !may_note(fabric, 0) {
        return Ok(());
    }
    fabric.post(tile_zero(0), 0)
}

// A tick passes.
fn tick_alone(fabric: &mut Fabric) -> Result<(), NotEnabled> {
    if !may_note(fabric, 0) {
        return Ok(());
    }
    fabric.tick(tile_zero(0))
}

// A message goes on from the router of tile 0.
fn data_hop_alone(fabric: &mut Fabric) -> Result<(), NotEnabled> {
    if !may_note(fabric, 0) {
        return Ok(());
    }
    fabric.data_hop(tile_zero(0), 0, Port::L, 0)
}

// Tile 0 makes a request.
fn inject_alone(fabric: &mut Fabric) -> Result<(), NotEnabled> {
    if !may_note(fabric, 0) {
        return Ok(());
    }
    fabric.inject(tile_zero(0), Kind::GetS, 1)
}

#[test]
fn a_full_channel_takes_in_no_request(rt: HostRuntime) -> Result<(), Fail> {
    let mut fabric = one_tile(rt.alloc())?;
    assert_eq!(rt; post_one(&mut fabric), Ok(()));
    assert_eq!(rt; inject_alone(&mut fabric), Err(NotEnabled));
    assert_eq!(rt; fabric.length(), 4);
    Ok(())
}

#[test]
fn a_fabric_is_opened(rt: HostRuntime) -> Result<(), Fail> {
    let fabric = one_tile(rt.alloc())?;
    assert_eq!(rt;
        (fabric.length(), fabric.spare(), fabric.idle()),
        (0, 20, true)
    );
    Ok(())
}

#[test]
fn a_request_goes_from_its_tile_to_its_delivery(rt: HostRuntime) -> Result<(), Fail> {
    let mut fabric = one_tile(rt.alloc())?;
    assert_eq!(rt; post_one(&mut fabric), Ok(()));
    assert_eq!(rt; take_one(&mut fabric), Ok(()));
    assert_eq!(rt; fabric.idle(), false);
    let q = Request {
        source: 0,
        number: 0,
        kind: Kind::GetM,
        line: 3,
    };
    assert_eq!(rt; eject_one(&mut fabric), Ok(q));
    assert_eq!(rt; (fabric.length(), fabric.idle()), (7, true));
    Ok(())
}

#[test]
fn a_message_goes_to_its_tile(rt: HostRuntime) -> Result<(), Fail> {
    let mut fabric = one_tile(rt.alloc())?;
    assert_eq!(rt; send_one(&mut fabric), Ok(()));
    assert_eq!(rt; fabric.idle(), false);
    assert_eq!(rt; send_one(&mut fabric), Err(NotEnabled));
    assert_eq!(rt; receive_one(&mut fabric), Ok(words_for(0)));
    assert_eq!(rt; (fabric.length(), fabric.idle()), (2, true));
    Ok(())
}

// A request of tile 0 hops to tile 1.
fn hop_one(fabric: &mut Fabric) -> Result<(), NotEnabled> {
    if !may_note(fabric, 0) {
        return Err(NotEnabled);
    }
    fabric.hop(tile_zero(0), 0, Port::L, 0, Port::E)
}

#[test]
fn a_hop_is_counted(rt: HostRuntime) -> Result<(), Fail> {
    let mut fabric = two_tiles(rt.alloc())?;
    assert_eq!(rt; hop_one(&mut fabric), Err(NotEnabled));
    assert_eq!(rt; post_one(&mut fabric), Ok(()));
    assert_eq!(rt; hop_one(&mut fabric), Ok(()));
    let lists = Box::into_inner(fabric).into_lists();
    assert_eq!(rt;
        (lists.hops, lists.windows, lists.journal.length()),
        (1, 0, 5)
    );
    Ok(())
}

// Words for tile 1 enter the router of tile 0, and hop.
fn words_hop(fabric: &mut Fabric) -> Result<(), NotEnabled>
    requires { 1 < tile_count fabric.old.chip }
{
    if !may_note(fabric, 0) {
        return Err(NotEnabled);
    }
    fabric.send(tile_zero(0), 0, words_for(1))?;
    if !may_note(fabric, 0) {
        return Err(NotEnabled);
    }
    fabric.data_hop(tile_zero(0), 0, Port::L, 0)
}

#[test]
fn words_hop_to_the_next_router(rt: HostRuntime) -> Result<(), Fail> {
    let mut fabric = two_tiles(rt.alloc())?;
    assert_eq!(rt; words_hop(&mut fabric), Ok(()));
    assert_eq!(rt; (fabric.length(), fabric.idle()), (2, false));
    Ok(())
}

#[test]
fn what_is_not_possible_leaves_no_entry(rt: HostRuntime) -> Result<(), Fail> {
    let mut fabric = one_tile(rt.alloc())?;
    assert_eq!(rt; take_one(&mut fabric), Err(NotEnabled));
    assert_eq!(rt; eject_one(&mut fabric), Err(NotEnabled));
    assert_eq!(rt; receive_one(&mut fabric), Err(NotEnabled));
    assert_eq!(rt; post_alone(&mut fabric), Err(NotEnabled));
    assert_eq!(rt; tick_alone(&mut fabric), Err(NotEnabled));
    assert_eq!(rt; data_hop_alone(&mut fabric), Err(NotEnabled));
    assert_eq!(rt; fabric.can_post(tile_zero(0), 0), false);
    assert_eq!(rt; fabric.can_tick(tile_zero(0)), false);
    assert_eq!(rt; fabric.can_inject(tile_zero(0), Kind::GetS, 1), true);
    assert_eq!(rt; fabric.length(), 0);
    Ok(())
}

#[test]
fn a_core_event_and_an_access_are_noted(rt: HostRuntime) -> Result<(), Fail> {
    let mut fabric = one_tile(rt.alloc())?;
    if may_note(&fabric, 0) {
        fabric.note_core(0);
    }
    let load = Access {
        tile: 0,
        number: 0,
        kind: AccessKind::Load,
        address: 2,
        value: 7,
        time: 0,
        old: 0,
    };
    let mut noted = one_tile(rt.alloc())?;
    noted.note_access(load);
    let lists = Box::into_inner(noted).into_lists();
    assert_eq!(rt; lists.accesses.as_slice(), [load].as_slice());
    assert_eq!(rt; fabric.length(), 1);
    Ok(())
}
