//! A sink over a writer that is interrupted, takes a part, or fails.

use outside_host::HostSink;
use outside_io::{Failed, Sink};
use std::io::{self, ErrorKind, Write};
use std::test::Fail;

/// A writer that is interrupted, takes a byte, takes nothing, fails, and takes all from then on.
#[derive(Drop)]
struct Moody {
    turn: u32,
}

impl Write for Moody {
    fn write(&mut self, buf: &[u8]) -> io::Result<usize> {
        self.turn = self.turn.saturating_add(1);
        match self.turn {
            1 => Err(io::Error::from(ErrorKind::Interrupted)),
            2 => Ok(buf.len().min(1)),
            3 => Ok(0),
            4 => Err(io::Error::from(ErrorKind::StorageFull)),
            _ => Ok(buf.len()),
        }
    }

    fn flush(&mut self) -> io::Result<()> {
        Ok(())
    }
}

#[test]
fn prints_go_on(rt: HostRuntime) -> Result<(), Fail> {
    let mut out = HostSink::new(Moody { turn: 0 });
    assert_eq!(rt; out.write(b"abc"), Ok(1));
    assert_eq!(rt; out.faults(), 0);
    assert_eq!(rt; out.write(b"bc"), Err(Failed));
    assert_eq!(rt; out.write(b"bc"), Err(Failed));
    assert_eq!(rt; out.faults(), 2);
    assert_eq!(rt; out.write(b"bc"), Ok(2));
    Ok(())
}
