//! A file of a media in memory, and objects of memory.

use outside_io::{
    Failed, MemoryMedia, MemorySink, MemorySource, PumpFault, Sink, pump, read_whole, write_whole,
};
use std::test::Fail;

#[test]
fn moves_whole_files(rt: HostRuntime) -> Result<(), Fail> {
    let alloc = rt.alloc();
    let mut files = Vec::new(alloc);
    files.push((String::from_str(alloc, "a")?, b"abc".to_vec(alloc)?))?;
    let mut m = MemoryMedia::new(alloc, files, Vec::new(alloc), 65_536)?;
    let a = read_whole(alloc, &mut m, "a", 3).map_err(|_| "a")?;
    assert_eq!(rt; m.file("a").ok_or("a")?, a.as_slice());
    assert_eq!(rt; write_whole(alloc, &mut m, "b", &a), Ok(()));
    assert_eq!(rt; m.file("b").ok_or("b")?, a.as_slice());
    Ok(())
}

#[test]
fn objects_of_memory(rt: HostRuntime) -> Result<(), Fail> {
    let alloc = rt.alloc();
    let mut source = MemorySource::new(vec![in alloc; 3u8; 5]?)?;
    let mut sink = MemorySink::new(alloc, 4)?;
    assert_eq!(rt; pump(&mut source, &mut sink), Err(PumpFault::Write));
    assert_eq!(rt; sink.faults(), 1);
    assert_eq!(rt; sink.into_bytes(), vec![in alloc; 3u8; 4]?);
    let mut full = MemorySink::new(alloc, 0)?;
    assert_eq!(rt; full.write(b"a"), Err(Failed));
    assert_eq!(rt; full.faults(), 1);
    Ok(())
}
