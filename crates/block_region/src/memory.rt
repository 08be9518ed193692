//! A `Vec` apart from its memory, and the memory apart from a `Vec`. No step here copies a byte or takes memory.
ghost use Rattle.std.specs.Prelude.{◌≡◌, ℕ, ◌^◌, ◌<◌, List, [], length, replicate};
ghost use base.Fml.{ftrue, fex, fwand, fsep, feq};
ghost use denote.RawPtr.{Ptr};
ghost use Rattle.block_region.specs.Ownership.{Extent, extent_code, run_owns, room_owns};

use std::alloc::Allocator;
use std::marker::{Model, Move, Owns};
use std_alloc::vec::{Lodged, lodge};

/// The bytes at `ptr`, which nothing else can reach.
pub(crate) struct Run {
    ghost ptr: { Ptr },
    ghost items: { List ℕ },
}

impl Model for Run {
    ghost also_owns = { λ r. run_owns r.ptr r.items };
}

/// Room at `ptr` for so many bytes, of which none is written, and which nothing else can reach.
pub(crate) struct Room {
    ghost ptr: { Ptr },
    ghost len: { ℕ },
}

impl Model for Room {
    ghost also_owns = { λ r. room_owns r.ptr r.len };
}

/// An empty `Vec` whose memory is out as a `Room`.
pub(crate) struct Sole<A: Allocator> {
    vec: Vec<u8, A>,
}

impl<A: Allocator> Owns for Sole<A> {
    ghost Value = { Extent };

    ghost coded = { extent_code };

    ghost shr_at = { λ _ _ _. ftrue };
}

impl<A: Allocator> Move for Sole<A> {
    ghost own_val = { λ e vs. fex Inside (λ v. fsep (feq (List ℕ) v.vec.items []) (fwand (room_owns e.ptr e.len) (Fields.own_val v vs))) };
}

// A `&` to it shows nothing.
unsafe impl<A: Allocator + Send> Send for Sole<A> {}

unsafe impl<A: Allocator> Sync for Sole<A> {}

pub(crate) fn detach<A: Allocator>(vec: Vec<u8, A>) -> (Room, Sole<A>)
    requires { (vec.items ≡ []) × (0 < vec.cap) }
    ensures { (result.0.ptr ≡ vec.ptr) × (result.0.len ≡ vec.cap) × (result.1.ptr ≡ vec.ptr)
        × (result.1.len ≡ vec.cap) }
{
    (Room {}, Sole { vec })
}

pub(crate) fn attach<A: Allocator>(room: Room, sole: Sole<A>) -> Vec<u8, A>
    requires { (room.ptr ≡ sole.ptr) × (room.len ≡ sole.len) }
    ensures { result.items ≡ [] }
{
    let Room {} = room;
    let Sole { vec } = sole;
    vec
}

/// A `Vec` over the run, which neither grows nor frees it.
pub(crate) fn house(ptr: *mut u8, len: usize, run: Run) -> Vec<u8, Lodged>
    requires { (run.ptr ≡ ptr) × (length run.items ≡ len) × (0 < len) × (len < 2 ^ 63) }
    ensures { (result.items ≡ run.items) × (result.len ≡ len) × (result.cap ≡ len)
        × (result.ptr ≡ ptr) }
{
    let Run {} = run;
    unsafe { lodge(ptr, len, len) }
}

/// An empty `Vec` over the room, which neither grows nor frees it.
fn furnish(ptr: *mut u8, cap: usize, room: Room) -> Vec<u8, Lodged>
    requires { (room.ptr ≡ ptr) × (room.len ≡ cap) × (0 < cap) × (cap < 2 ^ 63) }
    ensures { (result.items ≡ []) × (result.len ≡ 0) × (result.cap ≡ cap) × (result.ptr ≡ ptr) }
{
    let Room {} = room;
    unsafe { lodge(ptr, 0, cap) }
}

/// A `Vec` of zeros over the room, which neither grows nor frees it.
pub(crate) fn house_zeros(ptr: *mut u8, len: usize, room: Room) -> Vec<u8, Lodged>
    requires { (room.ptr ≡ ptr) × (room.len ≡ len) × (0 < len) × (len < 2 ^ 63) }
    ensures { (result.items ≡ replicate len 0) × (result.len ≡ len) × (result.cap ≡ len)
        × (result.ptr ≡ ptr) }
{
    let mut bytes = furnish(ptr, len, room);
    for _ in 0..len {
        bytes.push_reserved(0);
    }
    bytes
}

pub(crate) fn vacate(vec: Vec<u8, Lodged>) -> Run
    requires { 0 < vec.len }
    ensures { (result.ptr ≡ vec.ptr) × (result.items ≡ vec.items) }
{
    let _len = vec.dislodge();
    Run {}
}
