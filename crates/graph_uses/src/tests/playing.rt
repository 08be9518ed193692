//! A file of three samples is copied through a graph.

use crate::copy_file;
use il_graph::{PartFile, Progress};
use omx_types::State;
use outside_io::{MemorySink, MemorySource};

/// Three samples of 16 bits, one channel, 8,000 a second, as usual tools write them.
const FILE: [u8; 50] = [
    b'R', b'I', b'F', b'F', 42, 0, 0, 0, b'W', b'A', b'V', b'E', b'f', b'm', b't', b' ', 16, 0, 0,
    0, 1, 0, 1, 0, 64, 31, 0, 0, 128, 62, 0, 0, 2, 0, 16, 0, b'd', b'a', b't', b'a', 6, 0, 0, 0, 0,
    0, 1, 0, 255, 127,
];

#[test]
fn file_copied(rt: HostRuntime) {
    let bytes = match Vec::from_array(rt.alloc(), FILE) {
        Ok(bytes) => bytes,
        Err(_) => panic!(rt; "out of memory"),
    };
    let source = match MemorySource::new(bytes) {
        Ok(source) => source,
        Err(_) => panic!(rt; "out of memory"),
    };
    let sink = match MemorySink::new(rt.alloc(), 100) {
        Ok(sink) => sink,
        Err(_) => panic!(rt; "out of memory"),
    };
    match copy_file(&rt, rt.alloc(), source, sink) {
        Ok((progress, Some(PartFile::To { snk, frames: _ }))) => {
            let told = Progress {
                state: Some(State::Loaded),
                eos: true,
                error: None,
                settings: None,
                port: None,
            };
            assert_eq!(rt; progress, told);
            assert_eq!(rt; snk.into_bytes().as_slice(), FILE.as_slice());
        }
        _ => panic!(rt; "refused"),
    }
}
