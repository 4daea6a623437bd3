use outside_io::{
    MemSink, MemSource, ReadEnd, StdSink, StdSource, WriteFault, read_all, write_piece,
};
use std::test::Fail;

#[test]
fn a_source_is_read_to_its_end_in_chunks(rt: HostRuntime) -> Result<(), Fail> {
    let alloc = rt.alloc();
    let mut source = MemSource::new(b"mesh".to_vec(alloc)?, 3, Vec::new(alloc));
    assert_eq!(rt;
        read_all(alloc, &mut source, 4)?.as_slice(),
        b"mesh".as_slice()
    );
    Ok(())
}

#[test]
fn an_input_past_the_limit_is_too_long(rt: HostRuntime) -> Result<(), Fail> {
    let alloc = rt.alloc();
    let mut source = MemSource::new(b"mesh".to_vec(alloc)?, 3, Vec::new(alloc));
    assert_eq!(rt;
        read_all(alloc, &mut source, 3).err(),
        Some(ReadEnd::TooLong)
    );
    Ok(())
}

#[test]
fn a_read_that_is_told_to_fail_fails_and_takes_nothing(rt: HostRuntime) -> Result<(), Fail> {
    let alloc = rt.alloc();
    let mut source = MemSource::new(b"mesh".to_vec(alloc)?, 3, [1].to_vec(alloc)?);
    assert_eq!(rt;
        read_all(alloc, &mut source, 4).err(),
        Some(ReadEnd::ReadFault)
    );
    assert_eq!(rt;
        read_all(alloc, &mut source, 4)?.as_slice(),
        b"h".as_slice()
    );
    Ok(())
}

#[test]
fn a_write_that_is_told_to_fail_fails_and_appends_nothing(rt: HostRuntime) -> Result<(), Fail> {
    let alloc = rt.alloc();
    let mut sink = MemSink::new([0; 5].to_vec(alloc)?, [1].to_vec(alloc)?);
    assert_eq!(rt; write_piece(&mut sink, b"0 3"), Ok(()));
    assert_eq!(rt; write_piece(&mut sink, b" 1"), Err(WriteFault));
    assert_eq!(rt; write_piece(&mut sink, b" 2 4"), Err(WriteFault));
    assert_eq!(rt; sink.held(), b"0 3 2".as_slice());
    Ok(())
}

#[test]
fn a_reader_of_std_is_a_source(rt: HostRuntime) -> Result<(), Fail> {
    let alloc = rt.alloc();
    let mut source = StdSource::new(b"mesh".as_slice());
    assert_eq!(rt;
        read_all(alloc, &mut source, 4)?.as_slice(),
        b"mesh".as_slice()
    );
    Ok(())
}

#[test]
fn a_writer_of_std_is_a_sink(rt: HostRuntime) -> Result<(), Fail> {
    let mut text = Vec::new(rt.alloc());
    let mut sink = StdSink::new(&mut text);
    assert_eq!(rt; write_piece(&mut sink, b"mesh"), Ok(()));
    drop(sink);
    assert_eq!(rt; text.as_slice(), b"mesh".as_slice());
    Ok(())
}
