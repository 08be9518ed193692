//! One pass over a list of packets: the stream that it has, and its frames in order, with silence in gaps.

ghost use Rattle.std.specs.Prelude.{◌≡◌, ℕ, ◌+◌, ◌-◌, ◌≤◌, ◌<◌, ◌^◌, ◌++◌, [], length, drop, replicate, vec_len, None, true, false, IfErr, IfOk, IfSome, IfNone, OnOk};
ghost use Rattle.outside_io.specs.Keeping.{KeepsSource};
ghost use Rattle.std.specs.VecDeque.{deque_len};
ghost use Rattle.outside_io.specs.Moves.{WhereTold};
ghost use Rattle.rtp_parts.specs.Sorting.{gap_before};

use crate::RtpFault;
use crate::companding::is_same;
use crate::packet::read_packet;
use crate::reading::{Record, read_record};
use crate::window::{Held, Window};
use g711_law::Companding;
use outside_io::{OutOfMemory, Source};
use std::alloc::Global;

/// The frames of silence that a gap has at most; before a packet that is further there are none.
const MOST_SILENCE: u32 = 80_000;

/// The packets of one source that are coded by one companding.
#[derive(Clone, Copy)]
pub(crate) struct Stream {
    pub(crate) companding: Companding,
    pub(crate) source: u32,
}

/// The next frames of the output: silence, and then the payload of a packet.
#[derive(Drop)]
pub(crate) struct Piece {
    pub(crate) silence: u32,
    pub(crate) payload: Vec<u8>,
}

/// Goes over a list of packets once.
#[derive(Drop)]
pub(crate) struct Unpacker {
    pub(crate) stream: Option<Stream>,
    pub(crate) window: Window,
    pub(crate) packets: u64,
    ended: bool,
    end: Option<u32>,
    ghost counted: { window.accepted + window.late + window.repeated ≤ packets },
    ghost idle: { stream ≡ None → window.held.items ≡ [] },
}

impl Unpacker {
    ghost use Rattle.rtp_parts.specs.Packets.{packet_in};
    ghost use Rattle.rtp_parts.specs.Sorting.{end_of};
    ghost use Rattle.rtp_parts.specs.Steps.{numbered_of, with_packet, course_of, course_left, codes_left, counts_in, room_left, steps_left, StopsReading};

    pub(crate) fn new(alloc: Global) -> Unpacker
        ensures course { course_of result ≡ record { stream = None; line = record { greatest = 65536; line = []; accepted = 0; late = 0; repeated = 0 }; packets = 0 } }
        ensures going { result.ended ≡ false }
        ensures first { result.end ≡ None }
        ensures empty { deque_len result.window.held ≡ 0 }
    {
        Unpacker {
            stream: None,
            window: Window::new(alloc),
            packets: 0,
            ended: false,
            end: None,
        }
    }

    /// The next frames, by way of a buffer for a record.
    pub(crate) fn next<S: Source>(
        &mut self,
        alloc: Global,
        src: &mut S,
        buffer: &mut [u8],
    ) -> Result<Option<Piece>, RtpFault>
        requires room { length buffer.old ≡ 65535 }
        requires few { self.old.packets + room_left self.old (S.size src.old - S.offset src.old) ≤ 2 ^ 27 }
        requires reached { WhereTold (S.ends src.old) (λ end. S.offset src.old ≤ end) }
        // Where the source tells its bytes
        ensures given { WhereTold (S.told src.old) (λ bytes. IfOk result (λ given. IfSome given (λ piece. (silence : ℕ) →
            codes_left silence self.old (drop (S.offset src.old) bytes)
            ≡ replicate piece.silence silence ++ piece.payload.items ++ codes_left silence self.new (drop (S.offset src.new) bytes)))) }
        ensures counts { WhereTold (S.told src.old) (λ bytes. IfOk result (λ given. IfSome given (λ _.
            counts_in (course_left self.old (drop (S.offset src.old) bytes)) ≡ counts_in (course_left self.new (drop (S.offset src.new) bytes))))) }
        ensures none { WhereTold (S.told src.old) (λ bytes. IfOk result (λ given. IfNone given ((silence : ℕ) →
            codes_left silence self.old (drop (S.offset src.old) bytes) ≡ []))) }
        ensures all { WhereTold (S.told src.old) (λ bytes. IfOk result (λ given. IfNone given (
            counts_in (course_left self.old (drop (S.offset src.old) bytes)) ≡ counts_in (course_of self.new)))) }

        // Over every source
        ensures short { IfOk result (λ given. IfSome given (λ piece. (piece.silence ≤ 80000) × (vec_len piece.payload ≤ 4096))) }
        ensures nearer { IfOk result (λ given. IfSome given (λ _.
            steps_left self.new (S.size src.old - S.offset src.new) < steps_left self.old (S.size src.old - S.offset src.old))) }
        ensures few { OnOk result (self.new.packets + room_left self.new (S.size src.old - S.offset src.new) ≤ 2 ^ 27) }
        ensures stop { IfErr result (StopsReading (S.size src.old) (S.ends src.old) (S.faults src.old) (S.faults src.new)) }
        ensures reached { WhereTold (S.ends src.old) (λ end. OnOk result (S.offset src.new ≤ end)) }
        ensures keeps_source { KeepsSource S.Source src.old src.new }
        ensures stays { OnOk result (S.faults src.new ≡ S.faults src.old) }
    {
        loop {
            match self.window.due(self.ended) {
                Some(held) => return Ok(Some(self.piece(held))),
                None => {
                    if self.ended {
                        return Ok(None);
                    }
                    self.take_record(alloc, src, buffer)?;
                }
            }
        }
    }

    /// The frames of the packet that is next.
    fn piece(&mut self, held: Held) -> Piece
        requires { vec_len held.payload ≤ 4096 }
        ensures silence { result.silence ≡ gap_before self.old.end held.timestamp }
        ensures short { result.silence ≤ 80000 }
        ensures payload { result.payload ≡ held.payload }
        ensures items { result.payload.items ≡ held.payload.items }
        ensures ends { self.new.end ≡ Some (end_of (numbered_of held)) }
        ensures same { course_of self.new ≡ course_of self.old }
        ensures held { deque_len self.new.window.held ≡ deque_len self.old.window.held }
        ensures ended { self.new.ended ≡ self.old.ended }
    {
        let silence = gap_before(self.end, held.timestamp);
        self.end = Some(held.timestamp.wrapping_add(held.payload.len() as u32));
        Piece {
            silence,
            payload: held.payload,
        }
    }

    /// Takes the next record of the list.
    fn take_record<S: Source>(
        &mut self,
        alloc: Global,
        src: &mut S,
        buffer: &mut [u8],
    ) -> Result<(), RtpFault>
        requires room { length buffer.old ≡ 65535 }
        requires going { self.old.ended ≡ false }
        requires few { self.old.packets + room_left self.old (S.size src.old - S.offset src.old) ≤ 2 ^ 27 }
        requires reached { WhereTold (S.ends src.old) (λ end. S.offset src.old ≤ end) }
        ensures left { WhereTold (S.told src.old) (λ bytes. OnOk result (
            course_left self.new (drop (S.offset src.new) bytes) ≡ course_left self.old (drop (S.offset src.old) bytes))) }
        ensures few { OnOk result (self.new.packets + room_left self.new (S.size src.old - S.offset src.new) ≤ 2 ^ 27) }
        ensures nearer { OnOk result (room_left self.new (S.size src.old - S.offset src.new) < room_left self.old (S.size src.old - S.offset src.old)) }
        ensures steps { OnOk result (steps_left self.new (S.size src.old - S.offset src.new) < steps_left self.old (S.size src.old - S.offset src.old)) }
        ensures stop { IfErr result (StopsReading (S.size src.old) (S.ends src.old) (S.faults src.old) (S.faults src.new)) }
        ensures reached { WhereTold (S.ends src.old) (λ end. OnOk result (S.offset src.new ≤ end)) }
        ensures end { self.new.end ≡ self.old.end }
        ensures keeps_source { KeepsSource S.Source src.old src.new }
        ensures stays { OnOk result (S.faults src.new ≡ S.faults src.old) }
    {
        match read_record(src, buffer)? {
            Record::End => {
                self.ended = true;
                Ok(())
            }
            Record::Cut => {
                self.packets += 1;
                self.ended = true;
                Ok(())
            }
            Record::Whole(len) => {
                self.packets += 1;
                match self.take_packet(alloc, &buffer[..len]) {
                    Ok(()) => Ok(()),
                    Err(_) => Err(RtpFault::OutOfMemory),
                }
            }
        }
    }

    /// Takes the packet of these bytes, which was counted.
    fn take_packet(&mut self, alloc: Global, bytes: &[u8]) -> Result<(), OutOfMemory>
        requires counted { self.old.window.accepted + self.old.window.late + self.old.window.repeated < self.old.packets }
        requires few { self.old.packets ≤ 2 ^ 27 }
        ensures taken { OnOk result (course_of self.new ≡ with_packet (packet_in bytes.now) (course_of self.old)) }
        ensures held { deque_len self.new.window.held ≤ deque_len self.old.window.held + 1 }
        ensures packets { self.new.packets ≡ self.old.packets }
        ensures ended { self.new.ended ≡ self.old.ended }
        ensures end { self.new.end ≡ self.old.end }
    {
        let Some(fields) = read_packet(bytes) else {
            return Ok(());
        };
        let payload = &bytes[fields.from..fields.to];
        match self.stream {
            None => {
                self.stream = Some(Stream {
                    companding: fields.companding,
                    source: fields.source,
                });
                self.window.start(fields.sequence);
                self.window
                    .arrive(alloc, fields.sequence, fields.timestamp, payload)
            }
            Some(first) => {
                if fields.source == first.source && is_same(fields.companding, first.companding) {
                    self.window
                        .arrive(alloc, fields.sequence, fields.timestamp, payload)
                } else {
                    Ok(())
                }
            }
        }
    }
}

/// The frames of silence before a packet, behind one that ended at `end`.
fn gap_before(end: Option<u32>, timestamp: u32) -> u32
    ensures gap { result ≡ gap_before end timestamp }
    ensures short { result ≤ 80000 }
{
    match end {
        None => 0,
        Some(end) => {
            let gap = timestamp.wrapping_sub(end);
            if gap <= MOST_SILENCE { gap } else { 0 }
        }
    }
}
