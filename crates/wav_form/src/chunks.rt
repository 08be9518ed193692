//! Heads of chunks in a WAV file: read at an offset, told apart by name, with the offset behind the chunk.

ghost use Rattle.std.specs.Prelude.{◌≡◌, ◌≢◌, ◌+◌, ◌<◌, ◌≤◌, ◌^◌, length, take, IfOk, IfErr, OnOk, Err, bytes_eq, codes};
ghost use Rattle.byteorder.specs.Endian.{little_from};
ghost use Rattle.outside_io.specs.Asking.{AsksWithin};
ghost use Rattle.outside_io.specs.Causes.{Rose};
ghost use Rattle.outside_io.specs.Keeping.{KeepsSource};
ghost use Rattle.outside_io.specs.Moves.{WhereTold};
ghost use Rattle.wav_form.specs.Chunks.{chunk_at, end_of};
ghost use Rattle.wav_form.specs.Search.{view};
ghost use Rattle.wav_form.specs.Stops.{IsReadStop};

use crate::filling::fill_from;
use byteorder::{ByteOrder, LittleEndian};
use omx_types::WavFault;
use outside_io::Source;

/// The bytes of a chunk's name and length.
pub(crate) const CHUNK_HEAD: u64 = 8;

/// A chunk that was read: its name, its length, and the offset of its content.
#[derive(Clone, Copy)]
pub(crate) struct ChunkHead {
    pub(crate) name: [u8; 4],
    pub(crate) size: u32,
    pub(crate) content: u64,
}

/// The chunk whose head begins at `offset`.
pub(crate) fn read_chunk<S: Source>(src: &mut S, offset: u64) -> Result<ChunkHead, WavFault>
    requires there { offset + CHUNK_HEAD ≤ S.size src.old }
    requires small { offset < 2 ^ 63 }
    ensures chunk { WhereTold (S.told src.old) (λ bytes. IfOk result (λ chunk. view chunk ≡ chunk_at bytes offset)) }
    ensures reached { WhereTold (S.ends src.old) (λ end. OnOk result (offset + 8 ≤ end)) }
    ensures content { IfOk result (λ chunk. chunk.content ≡ offset + 8) }
    ensures offset { OnOk result (S.offset src.new ≡ offset + 8) }
    ensures keeps_source { KeepsSource S.Source src.old src.new }
    ensures read { result ≡ Err WavFault.Read → Rose (S.faults src.old) (S.faults src.new) }
    ensures stays { result ≢ Err WavFault.Read → S.faults src.new ≡ S.faults src.old }
    ensures asks { AsksWithin (S.asked src.old) (S.asked src.new) (offset + 8) }
    ensures stop { IfErr result (IsReadStop (S.size src.old) (S.ends src.old) offset (offset + 8)) }
{
    let mut head = [0u8; 8];
    fill_from(src, offset, &mut head)?;
    Ok(chunk_from(&head, offset))
}

/// A chunk by the 8 bytes of its head at `offset`.
fn chunk_from(head: &[u8; 8], offset: u64) -> ChunkHead
    requires { offset < 2 ^ 63 }
    ensures name { result.name ≡ take 4 head.now }
    ensures size { result.size ≡ little_from 4 4 head.now }
    ensures content { result.content ≡ offset + 8 }
{
    ChunkHead {
        name: [head[0], head[1], head[2], head[3]],
        size: LittleEndian::read_u32(&head[4..]),
        content: offset + CHUNK_HEAD,
    }
}

impl ChunkHead {
    pub(crate) fn is_format(&self) -> bool
        ensures { result ≡ bytes_eq self.now.name (codes "fmt ") }
    {
        self.name == *b"fmt "
    }

    pub(crate) fn is_samples(&self) -> bool
        ensures { result ≡ bytes_eq self.now.name (codes "data") }
    {
        self.name == *b"data"
    }

    /// The offset behind the content and the pad byte of an odd length.
    pub(crate) fn end(&self) -> u64
        requires { self.now.content < 2 ^ 63 }
        ensures value { result ≡ end_of (view self.now) }
        ensures near { result ≤ self.now.content + 2 ^ 32 }
    {
        let size = u64::from(self.size);
        self.content + size + size % 2
    }
}
