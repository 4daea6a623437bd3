//! The calls of a node: runs of its protocol.
ghost use Rattle.std.specs.Prelude.{◌≡◌, ◌<◌, IfOk, replicate};
ghost use Rattle.chip_model.specs.Node.{opening_node};
ghost use Rattle.chip_model.specs.NodeRows.{four_tiles, two_tiles, storing, storing_and_read, upgrading, waiting_load, modified, writing_back, missing_beside, written_back};

use mesh_gen::{Items, Kind, Mesh, Msg, MsgKind, NoMemory, NotEnabled, Request, Words};
use report_text::AccessKind;
use snoop_core::{Done, Node, Outcome, Owner, State};
use std::alloc::Global;
use std::test::Fail;

const STORED: Words = [5, 2, 3, 4];

// A node of four tiles with one set of one way each, whose memory is at the last one.
fn one_of_four(alloc: Global, tile: u8) -> Result<Node, NoMemory>
    requires { tile < 4 }
    ensures { IfOk result (λ node. node ≡ opening_node (four_tiles 3) tile (replicate 64 0)) }
{
    let mut mesh = Mesh::of_size(alloc, 2, 2, 2)?;
    mesh.sets = 1;
    mesh.controllers = Items::new(Vec::from_slice(alloc, &[3])?);
    Node::open(alloc, &mesh, tile, &[0; 64])
}

// The second of two tiles, whose memory is at the first one.
fn second_of_two(alloc: Global) -> Result<Node, NoMemory>
    ensures { IfOk result (λ node. node ≡ opening_node two_tiles 1 (replicate 64 0)) }
{
    let mesh = Mesh::of_size(alloc, 2, 1, 1)?;
    Node::open(alloc, &mesh, 1, &[0; 64])
}

fn request_of(line: u16, source: u8, number: u32, kind: Kind) -> Request
    ensures { result ≡ record { source = source; number = number; kind = kind; line = line } }
{
    Request {
        source,
        number,
        kind,
        line,
    }
}

fn words_for(to: u8, line: u16, words: Words) -> Msg
    ensures { result ≡ record { to = to; kind = MsgKind.Data; line = line; words = words } }
{
    Msg {
        to,
        kind: MsgKind::Data,
        line,
        words,
    }
}

fn words_back(to: u8, line: u16, words: Words) -> Msg
    ensures { result ≡ record { to = to; kind = MsgKind.Back; line = line; words = words } }
{
    Msg {
        to,
        kind: MsgKind::Back,
        line,
        words,
    }
}

fn done(kind: AccessKind, address: u32, value: u32, time: u64, old: u32) -> Option<Done> {
    Some(Done {
        kind,
        address,
        value,
        time,
        old,
    })
}

// A node that is to store 5 into a line, with its request sent.
fn storing(alloc: Global) -> Result<Node, NoMemory>
    ensures { IfOk result (λ node. node ≡ storing) }
{
    let mut node = one_of_four(alloc, 0)?;
    let _ = node.access(AccessKind::Store, 0, 5);
    node.mark_sent();
    Ok(node)
}

// The same after its request and two others to read were delivered.
fn storing_and_read(alloc: Global) -> Result<Node, NoMemory>
    ensures { IfOk result (λ node. node ≡ storing_and_read) }
{
    let mut node = storing(alloc)?;
    let _ = node.on_request(request_of(0, 0, 0, Kind::GetM));
    let _ = node.on_request(request_of(0, 1, 0, Kind::GetS));
    let _ = node.on_request(request_of(0, 2, 0, Kind::GetS));
    Ok(node)
}

// A node that owns a line which others share, and is to store into it again.
fn upgrading(alloc: Global) -> Result<Node, NoMemory>
    ensures { IfOk result (λ node. node ≡ upgrading) }
{
    let mut node = storing_and_read(alloc)?;
    let _ = node.on_data(words_for(0, 0, [1, 2, 3, 4]));
    node.drop_out();
    node.drop_out();
    let _ = node.access(AccessKind::Store, 1, 8);
    node.mark_sent();
    Ok(node)
}

// A node that is to load from a line, with its request sent.
fn waiting_load(alloc: Global) -> Result<Node, NoMemory>
    ensures { IfOk result (λ node. node ≡ waiting_load) }
{
    let mut node = second_of_two(alloc)?;
    let _ = node.access(AccessKind::Load, 0, 0);
    node.mark_sent();
    Ok(node)
}

// A node with the only copy of a line.
fn modified(alloc: Global) -> Result<Node, NoMemory>
    ensures { IfOk result (λ node. node ≡ modified) }
{
    let mut node = storing(alloc)?;
    let _ = node.on_request(request_of(0, 0, 0, Kind::GetM));
    let _ = node.on_data(words_for(0, 0, [1, 2, 3, 4]));
    Ok(node)
}

// A node that writes the line back, with its request sent.
fn writing_back(alloc: Global) -> Result<Node, NoMemory>
    ensures { IfOk result (λ node. node ≡ writing_back) }
{
    let mut node = modified(alloc)?;
    let _ = node.access(AccessKind::Load, 4, 0);
    node.mark_sent();
    Ok(node)
}

// The same with a miss beside the write-back, whose request is sent too.
fn missing_beside(alloc: Global) -> Result<Node, NoMemory>
    ensures { IfOk result (λ node. node ≡ missing_beside) }
{
    let mut node = writing_back(alloc)?;
    let _ = node.access(AccessKind::Load, 4, 0);
    node.mark_sent();
    Ok(node)
}

// The same after the write-back was ordered.
fn written_back(alloc: Global) -> Result<Node, NoMemory>
    ensures { IfOk result (λ node. node ≡ written_back) }
{
    let mut node = missing_beside(alloc)?;
    let _ = node.on_request(request_of(0, 0, 1, Kind::PutM));
    Ok(node)
}

#[test]
fn a_store_asks_for_its_line(rt: HostRuntime) -> Result<(), Fail> {
    let mut node = one_of_four(rt.alloc(), 0)?;
    assert_eq!(rt; node.can_access(AccessKind::Store, 0, 5), true);
    assert_eq!(rt; node.access(AccessKind::Store, 0, 5), Ok(Outcome::Started));
    assert_eq!(rt; node.wanted(), Some((Kind::GetM, 0)));
    node.mark_sent();
    assert_eq!(rt; node.wanted(), None);
    assert_eq!(rt; node.access(AccessKind::Store, 0, 5), Err(NotEnabled));
    assert_eq!(rt; node.has_entry(), true);
    Ok(())
}

#[test]
fn words_go_on_to_all_that_wait(rt: HostRuntime) -> Result<(), Fail> {
    let mut node = storing_and_read(rt.alloc())?;
    assert_eq!(rt; node.on_request(request_of(0, 3, 0, Kind::GetM)), None);
    assert_eq!(rt;
        node.on_data(words_for(0, 0, [1, 2, 3, 4])),
        done(AccessKind::Store, 0, 5, 1, 0)
    );
    assert_eq!(rt; node.line(0), None);
    assert_eq!(rt; node.next_out(), Some(words_for(1, 0, STORED)));
    node.drop_out();
    assert_eq!(rt; node.next_out(), Some(words_for(2, 0, STORED)));
    node.drop_out();
    assert_eq!(rt; node.next_out(), Some(words_for(3, 0, STORED)));
    node.drop_out();
    assert_eq!(rt; node.idle(), true);
    Ok(())
}

#[test]
fn an_upgrade_that_is_overtaken_waits(rt: HostRuntime) -> Result<(), Fail> {
    let mut node = upgrading(rt.alloc())?;
    assert_eq!(rt; node.on_request(request_of(0, 3, 0, Kind::GetM)), None);
    assert_eq!(rt; node.next_out(), Some(words_for(3, 0, STORED)));
    assert_eq!(rt; node.line(0), None);
    assert_eq!(rt; node.on_request(request_of(0, 0, 1, Kind::GetM)), None);
    assert_eq!(rt;
        node.on_data(words_for(0, 0, [5, 2, 9, 4])),
        done(AccessKind::Store, 1, 8, 5, 0)
    );
    assert_eq!(rt; node.line(0), Some((State::M, [5, 8, 9, 4])));
    Ok(())
}

#[test]
fn an_upgrade_completes_with_its_own_words(rt: HostRuntime) -> Result<(), Fail> {
    let mut node = upgrading(rt.alloc())?;
    assert_eq!(rt;
        node.on_request(request_of(0, 0, 1, Kind::GetM)),
        done(AccessKind::Store, 1, 8, 4, 0)
    );
    assert_eq!(rt; node.next_out(), None);
    assert_eq!(rt; node.line(0), Some((State::M, [5, 8, 3, 4])));
    Ok(())
}

#[test]
fn words_that_come_late_serve_once(rt: HostRuntime) -> Result<(), Fail> {
    let mut node = waiting_load(rt.alloc())?;
    assert_eq!(rt; node.on_request(request_of(0, 1, 0, Kind::GetS)), None);
    assert_eq!(rt; node.on_request(request_of(0, 0, 0, Kind::GetM)), None);
    assert_eq!(rt;
        node.on_data(words_for(1, 0, [7, 0, 0, 0])),
        done(AccessKind::Load, 0, 7, 1, 0)
    );
    assert_eq!(rt; node.line(0), None);
    assert_eq!(rt; node.access(AccessKind::Load, 0, 0), Ok(Outcome::Started));
    Ok(())
}

#[test]
fn words_that_come_early_wait(rt: HostRuntime) -> Result<(), Fail> {
    let mut node = waiting_load(rt.alloc())?;
    assert_eq!(rt; node.on_data(words_for(1, 0, [7, 0, 0, 0])), None);
    assert_eq!(rt;
        node.on_request(request_of(0, 1, 0, Kind::GetS)),
        done(AccessKind::Load, 0, 7, 1, 0)
    );
    assert_eq!(rt; node.line(0), Some((State::S, [7, 0, 0, 0])));
    assert_eq!(rt;
        node.access(AccessKind::Load, 0, 0),
        done(AccessKind::Load, 0, 7, 1, 0)
            .map(Outcome::Hit)
            .ok_or(NotEnabled)
    );
    Ok(())
}

#[test]
fn a_stale_write_back_ends_without_a_word(rt: HostRuntime) -> Result<(), Fail> {
    let mut node = writing_back(rt.alloc())?;
    assert_eq!(rt; node.on_request(request_of(0, 2, 0, Kind::GetM)), None);
    assert_eq!(rt; node.next_out(), Some(words_for(2, 0, STORED)));
    assert_eq!(rt; node.on_request(request_of(0, 0, 1, Kind::PutM)), None);
    node.drop_out();
    assert_eq!(rt; node.next_out(), None);
    assert_eq!(rt; node.delivered(), 3);
    Ok(())
}

#[test]
fn a_miss_starts_beside_a_write_back(rt: HostRuntime) -> Result<(), Fail> {
    let mut node = writing_back(rt.alloc())?;
    assert_eq!(rt; node.access(AccessKind::Load, 0, 0), Err(NotEnabled));
    assert_eq!(rt; node.access(AccessKind::Load, 4, 0), Ok(Outcome::Started));
    assert_eq!(rt; node.wanted(), Some((Kind::GetS, 1)));
    Ok(())
}

#[test]
fn the_write_back_is_wanted_first(rt: HostRuntime) -> Result<(), Fail> {
    let mut node = modified(rt.alloc())?;
    assert_eq!(rt; node.access(AccessKind::Load, 4, 0), Ok(Outcome::Started));
    assert_eq!(rt; node.has_entry(), false);
    assert_eq!(rt; node.idle(), false);
    assert_eq!(rt; node.wanted(), Some((Kind::PutM, 0)));
    assert_eq!(rt; node.access(AccessKind::Load, 4, 0), Ok(Outcome::Started));
    assert_eq!(rt; node.wanted(), Some((Kind::PutM, 0)));
    Ok(())
}

#[test]
fn a_write_back_beside_a_miss_sends_its_words(rt: HostRuntime) -> Result<(), Fail> {
    let mut node = missing_beside(rt.alloc())?;
    assert_eq!(rt; node.on_request(request_of(0, 0, 1, Kind::PutM)), None);
    assert_eq!(rt; node.next_out(), Some(words_back(3, 0, STORED)));
    Ok(())
}

#[test]
fn a_miss_beside_a_write_back_completes(rt: HostRuntime) -> Result<(), Fail> {
    let mut node = written_back(rt.alloc())?;
    assert_eq!(rt; node.on_request(request_of(1, 0, 2, Kind::GetS)), None);
    assert_eq!(rt;
        node.on_data(words_for(0, 1, [6, 0, 0, 0])),
        done(AccessKind::Load, 4, 6, 3, 0)
    );
    assert_eq!(rt; node.line(1), Some((State::S, [6, 0, 0, 0])));
    Ok(())
}

#[test]
fn a_stale_write_back_beside_a_miss_ends(rt: HostRuntime) -> Result<(), Fail> {
    let mut node = missing_beside(rt.alloc())?;
    assert_eq!(rt; node.on_request(request_of(0, 2, 0, Kind::GetM)), None);
    assert_eq!(rt; node.next_out(), Some(words_for(2, 0, STORED)));
    assert_eq!(rt; node.on_request(request_of(0, 0, 1, Kind::PutM)), None);
    node.drop_out();
    assert_eq!(rt; node.next_out(), None);
    assert_eq!(rt; node.has_entry(), true);
    Ok(())
}

#[test]
fn a_swap_hits_the_only_copy(rt: HostRuntime) -> Result<(), Fail> {
    let mut node = modified(rt.alloc())?;
    assert_eq!(rt;
        node.access(AccessKind::Swap, 0, 9),
        done(AccessKind::Swap, 0, 9, 1, 5)
            .map(Outcome::Hit)
            .ok_or(NotEnabled)
    );
    assert_eq!(rt; node.line(0), Some((State::M, [9, 2, 3, 4])));
    Ok(())
}

#[test]
fn words_that_come_back_serve_all_that_wait(rt: HostRuntime) -> Result<(), Fail> {
    let mut node = one_of_four(rt.alloc(), 3)?;
    assert_eq!(rt; node.on_request(request_of(0, 0, 0, Kind::GetM)), None);
    node.drop_out();
    assert_eq!(rt; node.on_request(request_of(0, 0, 1, Kind::PutM)), None);
    assert_eq!(rt; node.on_request(request_of(0, 1, 0, Kind::GetS)), None);
    assert_eq!(rt; node.on_request(request_of(0, 2, 0, Kind::GetM)), None);
    assert_eq!(rt; node.next_out(), None);
    assert_eq!(rt; node.on_data(words_back(3, 0, [5, 2, 3, 4])), None);
    assert_eq!(rt; node.next_out(), Some(words_for(1, 0, STORED)));
    assert_eq!(rt; node.home_record(0), Some((Owner::Tile(2), STORED, false)));
    Ok(())
}
