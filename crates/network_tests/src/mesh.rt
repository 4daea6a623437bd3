use bitflags::Flags;
use mesh_gen::{Items, Mesh, Port, Ports, Text, Tiles, has_tile, set_of, with_tile};
use std::test::Fail;

#[test]
fn tiles_stand_row_by_row(rt: HostRuntime) -> Result<(), Fail> {
    let mesh = Mesh::of_size(rt.alloc(), 3, 2, 3)?;
    assert_eq!(rt; mesh.tiles(), 6);
    assert_eq!(rt; mesh.diameter(), 3);
    let sides = [
        (0, [None, Some(1), None, None, Some(3)]),
        (2, [None, None, Some(1), None, Some(5)]),
        (4, [None, Some(5), Some(3), Some(1), None]),
        (6, [None, None, None, None, None]),
    ];
    for (tile, beside) in sides {
        let ports = [Port::L, Port::E, Port::W, Port::N, Port::S];
        assert_eq!(rt;
            ports.map(|port| mesh.neighbour(tile, port)),
            beside,
            "beside {tile}"
        );
    }
    Ok(())
}

#[test]
fn lists_and_texts_keep_what_they_were_made_of(rt: HostRuntime) -> Result<(), Fail> {
    let alloc = rt.alloc();
    let tiles: Tiles = Items::new([2, 0].to_vec(alloc)?);
    assert_eq!(rt; tiles.as_slice(), [2, 0].as_slice());
    assert_eq!(rt; tiles.into_vec().as_slice(), [2, 0].as_slice());
    let text = Text::new(String::from_str(alloc, "mesh")?);
    assert_eq!(rt; text.as_str(), "mesh");
    assert_eq!(rt; text.into_string().as_str(), "mesh");
    Ok(())
}

#[test]
fn a_request_spreads_from_the_middle_of_the_mesh(rt: HostRuntime) -> Result<(), Fail> {
    let mesh = Mesh::of_size(rt.alloc(), 3, 3, 4)?;
    let column = Ports::L.union(Ports::N).union(Ports::S);
    assert_eq!(rt;
        mesh.tree_outs(4, 4),
        column.union(Ports::E).union(Ports::W)
    );
    assert_eq!(rt; mesh.tree_outs(4, 3), column);
    assert_eq!(rt; mesh.tree_outs(4, 1), Ports::L);
    assert_eq!(rt; mesh.tree_parent(4, 0), Some(3));
    assert_eq!(rt; mesh.tree_parent(4, 4), None);
    assert_eq!(rt; mesh.home(15), 0);
    Ok(())
}

#[test]
fn a_mesh_has_at_most_eight_columns_and_rows(rt: HostRuntime) -> Result<(), Fail> {
    let mesh = Mesh::of_size(rt.alloc(), 8, 8, 14)?.copy(rt.alloc())?;
    assert_eq!(rt; mesh.tiles(), 64);
    assert_eq!(rt; mesh.diameter(), 14);
    assert_eq!(rt; mesh.distance(0, 63), 14);
    assert_eq!(rt; mesh.neighbour(63, Port::W), Some(62));
    assert_eq!(rt; mesh.neighbour(63, Port::S), None);
    Ok(())
}

#[test]
fn a_set_has_the_tiles_of_its_list(rt: HostRuntime) -> Result<(), Fail> {
    let set = set_of(&[3, 0, 63]);
    assert_eq!(rt; set, 0x8000_0000_0000_0009);
    assert_eq!(rt; has_tile(set, 3), true);
    assert_eq!(rt; has_tile(set, 4), false);
    assert_eq!(rt; with_tile(set, 4), 0x8000_0000_0000_0019);
    Ok(())
}
