use mesh_gen::{Mesh, NotEnabled, NotReady};
use std::test::Fail;
use window_core::Windows;

// What a call is asked, and what it answers.
#[derive(Clone, Copy, Debug, PartialEq, Eq)]
enum Call {
    Post(u8, Result<(), NotEnabled>),
    Tick(Result<Option<u64>, NotEnabled>),
    Take(u8, Result<u64, NotReady>),
}

impl Call {
    fn is_ok(self) -> bool {
        match self {
            Call::Post(_, answer) => answer.is_ok(),
            Call::Tick(answer) => answer.is_ok(),
            Call::Take(_, answer) => answer.is_ok(),
        }
    }
}

// The call as it was answered. A tick without room is given back as it came.
fn answered(windows: &mut Windows, call: Call) -> Call {
    match call {
        Call::Post(tile, _) => Call::Post(tile, windows.post(tile)),
        Call::Tick(_) if windows.spare() > 0 => Call::Tick(windows.tick()),
        Call::Tick(answer) => Call::Tick(answer),
        Call::Take(tile, _) => Call::Take(tile, windows.take(tile)),
    }
}

// Whether a twin says that the call is answered by Ok.
fn is_enabled(windows: &Windows, call: Call) -> bool {
    match call {
        Call::Post(tile, _) => windows.can_post(tile),
        Call::Tick(_) => windows.can_tick(),
        Call::Take(tile, _) => windows.can_take(tile),
    }
}

#[test]
fn windows_close_with_all_who_posted(rt: HostRuntime) -> Result<(), Fail> {
    let alloc = rt.alloc();
    let mesh = Mesh::of_size(alloc, 2, 2, 2)?;
    let mut windows = Windows::open(alloc, &mesh, 5)?;
    assert_eq!(rt; windows.taken(3), 0);
    let calls = [
        Call::Tick(Err(NotEnabled)),
        Call::Post(0, Ok(())),
        Call::Post(0, Err(NotEnabled)),
        Call::Post(4, Err(NotEnabled)),
        Call::Post(3, Ok(())),
        Call::Take(0, Err(NotReady)),
        Call::Tick(Ok(None)),
        Call::Post(1, Err(NotEnabled)),
        Call::Tick(Ok(Some(0b1001))),
        Call::Tick(Err(NotEnabled)),
        Call::Post(3, Ok(())),
        Call::Post(1, Ok(())),
        Call::Tick(Ok(None)),
        Call::Take(2, Ok(0b1001)),
        Call::Take(2, Err(NotReady)),
        Call::Tick(Ok(Some(0b1010))),
        Call::Post(2, Ok(())),
        Call::Tick(Ok(None)),
        Call::Tick(Ok(Some(0b0100))),
        Call::Take(2, Ok(0b1010)),
        Call::Take(3, Ok(0b1001)),
        Call::Take(3, Ok(0b1010)),
        Call::Take(3, Ok(0b0100)),
        Call::Take(3, Err(NotReady)),
        Call::Take(4, Err(NotReady)),
        Call::Take(255, Err(NotReady)),
        Call::Post(3, Ok(())),
        Call::Tick(Ok(None)),
        Call::Tick(Ok(Some(0b1000))),
        Call::Post(0, Ok(())),
        Call::Post(1, Ok(())),
        Call::Post(3, Ok(())),
        Call::Tick(Ok(None)),
        Call::Tick(Ok(Some(0b1011))),
        Call::Take(3, Ok(0b1000)),
        Call::Take(3, Ok(0b1011)),
        Call::Take(3, Err(NotReady)),
    ];
    for call in calls {
        let before = (windows.phase(), windows.spare());
        let enabled = is_enabled(&windows, call);
        assert_eq!(rt; answered(&mut windows, call), call);
        assert_eq!(rt; enabled, call.is_ok(), "{call:?}");
        if !enabled {
            assert_eq!(rt; (windows.phase(), windows.spare()), before);
        }
    }
    assert_eq!(rt; windows.spare(), 0);
    let closed = [0b1001, 0b1010, 0b0100, 0b1000, 0b1011];
    assert_eq!(rt; windows.closed(), closed.as_slice());
    Ok(())
}
