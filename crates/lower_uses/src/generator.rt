//! Made inputs of one frame: the bytes of both WAV files, and the text of the script.

use load_gen::make;
use outside_io::MemoryMedia;
use std::alloc::Global;
use std::test::Fail;

const SCRIPT: &[u8] = b"omx 1 play
source a w/a.wav
source b w/b.wav
gain g 2048
mixer m 2 4096 4096
alaw e
sink s w/out.wav
link a.0 g.0 4 4096
link g.1 m.0 4 4096
link b.0 m.1 4 4096
link m.2 e.0 4 4096
link e.1 s.0 4 4096
";

fn media(alloc: Global) -> Result<MemoryMedia, Fail> {
    Ok(MemoryMedia::new(alloc, Vec::new(alloc), Vec::new(alloc), 65536)?)
}

#[test]
fn one_frame(rt: HostRuntime) -> Result<(), Fail> {
    let alloc = rt.alloc();
    let mut media = media(alloc)?;
    assert_eq!(rt; make(alloc, 1, 1, "w", &mut media), Ok(()));
    let head =
        b"RIFF\x26\0\0\0WAVEfmt \x10\0\0\0\x01\0\x01\0\x40\x1f\0\0\x80\x3e\0\0\x02\0\x10\0data\x02\0\0\0";
    for (name, sample) in [("w/a.wav", b"\x57\x6c"), ("w/b.wav", b"\xa9\xc4")] {
        let file = media.file(name).ok_or("no file")?;
        assert_eq!(rt; file.len(), 46);
        assert!(rt; file.starts_with(head.as_slice()));
        assert!(rt; file.ends_with(sample.as_slice()));
    }
    assert_eq!(rt; media.file("w/mix.omx").ok_or("no file")?, SCRIPT);
    Ok(())
}
