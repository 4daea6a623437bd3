ghost use Rattle.std.specs.Prelude.{◌≡◌};
ghost use Rattle.mesh_gen.specs.Grid.{tiles};

use mesh_gen::Mesh;
use notify_net::Latches;
use std::test::Fail;

fn words(latches: &Latches) -> [u64; 4]
    requires { tiles latches.now.grid ≡ 4 }
{
    [
        latches.merged_at(0),
        latches.merged_at(1),
        latches.merged_at(2),
        latches.merged_at(3),
    ]
}

#[test]
fn a_post_reaches_one_hop_further_at_each_tick(rt: HostRuntime) -> Result<(), Fail> {
    let alloc = rt.alloc();
    let mesh = Mesh::of_size(alloc, 2, 2, 2)?;
    let mut latches = Latches::open(alloc, &mesh)?;
    latches.post(0);
    latches.post(3);
    assert_eq!(rt; words(&latches), [0b0001, 0, 0, 0b1000]);
    latches.tick();
    assert_eq!(rt; words(&latches), [0b0001, 0b1001, 0b1001, 0b1000]);
    latches.tick();
    assert_eq!(rt; words(&latches), [0b1001; 4]);
    latches.clear();
    assert_eq!(rt; words(&latches), [0; 4]);
    Ok(())
}
