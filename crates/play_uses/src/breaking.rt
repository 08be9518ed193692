//! A source that isn't opened, whose read fails, or which ends early, behind its head; a sink without room, or whose closing fails.

ghost use Rattle.std.specs.Prelude.{◌≤◌};

use omx_types::{Fault, Which};
use outside_io::{Fail, FailKind, MemoryMedia};
use play_course::play_script;
use play_run::OneThread;
use script_lang::read_script;
use std::alloc::{AllocError, Global};
use std::test::Fail as Failure;

/// PCM, mono, 8,000 frames a second, with the samples 1, -1 and 300.
const THREE_SAMPLES: &[u8] =
    b"RIFF\x2a\0\0\0WAVEfmt \x10\0\0\0\x01\0\x01\0\x40\x1f\0\0\x80\x3e\0\0\x02\0\x10\0data\x06\0\0\0\x01\0\xff\xff\x2c\x01";

const SCRIPT: &str = "omx 1 play\nsource a in\nsink b out\nlink a.0 b.0 2 4096\n";

const LATE: &str = "omx 1 play\nlate a in\nsink b out\nlink a.0 b.0 2 4096\n";

/// What the play of a script comes to; None where the text is no script.
fn played(alloc: Global, media: &mut MemoryMedia, text: &str) -> Option<Result<(), Fault>> {
    let Ok(script) = read_script(alloc, text.as_bytes(), true, "s", "log") else {
        return None;
    };
    match play_script(alloc, &script, media, "log", &mut OneThread) {
        Ok(_) => Some(Ok(())),
        Err(fault) => Some(Err(fault)),
    }
}

/// A media with a sound, and a room for each sink.
fn media_of(alloc: Global, fails: Vec<Fail>, room: usize) -> Result<MemoryMedia, AllocError>
    requires { room ≤ 4096 }
{
    let files = vec![in alloc; (String::from_str(alloc, "in")?, THREE_SAMPLES.to_vec(alloc)?)]?;
    MemoryMedia::new(alloc, files, fails, room)
}

#[test]
fn source_breaks_off(rt: HostRuntime) -> Result<(), Failure> {
    let alloc = rt.alloc();
    let short = Fault::Short {
        which: Which::Line(2),
        at: 46,
        size: 50,
    };
    for (script, kind, nth, told) in [
        (SCRIPT, FailKind::Read, 5, Fault::ReadFault),
        (LATE, FailKind::EndAt, 46, short),
    ] {
        let fails = vec![in alloc; Fail::new(String::from_str(alloc, "in")?, kind, nth)]?;
        let mut media = media_of(alloc, fails, 4096)?;
        assert_eq!(rt; played(alloc, &mut media, script), Some(Err(told)));
        assert_eq!(rt; media.file("out"), Some(b"".as_slice()));
        assert!(rt; media.file("log").is_none());
    }
    Ok(())
}

#[test]
fn sink_has_no_room(rt: HostRuntime) -> Result<(), Failure> {
    let alloc = rt.alloc();
    let mut media = media_of(alloc, Vec::new(alloc), 0)?;
    assert_eq!(rt;
        played(alloc, &mut media, SCRIPT),
        Some(Err(Fault::WriteFault))
    );
    assert_eq!(rt; media.file("out"), Some(b"".as_slice()));
    assert!(rt; media.file("log").is_none());
    Ok(())
}

#[test]
fn source_fails_to_open(rt: HostRuntime) -> Result<(), Failure> {
    let alloc = rt.alloc();
    let fails = vec![in alloc; Fail::new(String::from_str(alloc, "in")?, FailKind::OpenSource, 1)]?;
    let mut media = media_of(alloc, fails, 4096)?;
    assert_eq!(rt;
        played(alloc, &mut media, SCRIPT),
        Some(Err(Fault::ReadFault))
    );
    assert!(rt; media.file("out").is_none());
    assert!(rt; media.file("log").is_none());
    Ok(())
}

/// The first half of its bytes stays.
#[test]
fn sink_fails_to_close(rt: HostRuntime) -> Result<(), Failure> {
    let alloc = rt.alloc();
    let fails = vec![in alloc; Fail::new(String::from_str(alloc, "out")?, FailKind::Close, 1)]?;
    let mut media = media_of(alloc, fails, 4096)?;
    assert_eq!(rt;
        played(alloc, &mut media, SCRIPT),
        Some(Err(Fault::WriteFault))
    );
    assert_eq!(rt; media.file("out"), Some(&THREE_SAMPLES[..25]));
    assert!(rt; media.file("log").is_none());
    Ok(())
}
