//! One step of a part, on the memory of a work's headers.
ghost use Rattle.std.specs.Prelude.{◌≡◌, ◌↔◌, ℕ, ◌+◌, ◌*◌, ◌/◌, ◌<◌, ◌≤◌, false, length, min, option_map, take, is_some, IfNone, IfSome};
ghost use Rattle.omx_types.specs.declared.fault.PartFault.{PartFault as Fault};
ghost use Rattle.part_api.specs.Streams.{Incoming, sizes_of};
ghost use Rattle.part_api.specs.Terms.{begun};
ghost use Rattle.il_machine.specs.Lists.{overwritten};
ghost use Rattle.il_machine.specs.Stepping.{eos_flags, frames_at, is_last};
ghost use Rattle.header_core.specs.BufferHeader.{advanced, filled};
ghost use Rattle.il_flow.specs.Layouts.{IsLaidOut, ports_of};
ghost use Rattle.il_flow.specs.Places.{AreWithin, EachAt, Offer, carried, changed_from};
ghost use Rattle.il_flow.specs.Steps.{WasBroken, WasDone, came_in, shown, stepped_header, taken_at, taken_from};

use crate::frames::is_last;
use crate::layout::Layout;
use audio_parts::KindPart;
use header_core::Header;
use part_api::PartFault;

/// The bytes of so many frames, or all bytes where they are fewer.
#[tactic(auto, using(crate::proofs::Bytes::whole_frames, crate::proofs::Bytes::fewer))]
fn front_bytes(frames: u32, frame: usize, length: usize) -> usize
    requires { 1 ≤ frame }
    ensures value { result ≡ min (frames * frame) length }
    ensures whole { frames ≤ length / frame → result ≡ frames * frame }
    ensures within { result ≤ length }
{
    if frames as usize <= length / frame {
        frames as usize * frame
    } else {
        length
    }
}

/// The next frames of a header.
fn front(header: &Header, frames: u32, frame: usize) -> &[u8]
    requires some { 1 ≤ frame }
    requires whole { frames ≤ length header.now.held.content / frame }
    ensures value { result.now ≡ take (frames * frame) header.now.held.content }
    ensures bytes { length result.now ≡ frames * frame }
{
    let content = header.content();
    &content[..front_bytes(frames, frame, content.len())]
}

/// Takes so many frames out of a header, or all its content where that has fewer.
#[tactic(auto, using(crate::proofs::Bytes::drop_within))]
fn empty_header(header: &mut Header, frames: u32, frame: usize)
    requires { 1 ≤ frame }
    ensures { header.new ≡ advanced (frames * frame) header.old }
{
    let length = header.content().len().min(header.size() as usize);
    header.advance(front_bytes(frames, frame, length) as u32);
}

/// Puts an output's frames to the front of a memory.
fn put_front<P: KindPart>(part: &mut P, memory: &mut [u8], bytes: usize, output: u32)
    requires room { bytes ≤ length memory.old }
    requires stepped { P.can_put part.old output }
    requires whole { bytes ≡ (P.sizes part.old).output }
    ensures shape { P.shape part.new ≡ P.shape part.old }
    ensures terms { P.terms part.new ≡ P.terms part.old }
    ensures fits { P.is_ready part.new ↔ P.is_ready part.old }
    ensures failed { P.failed part.new ≡ P.failed part.old }
    ensures sizes { P.sizes part.new ≡ P.sizes part.old }
    ensures given { (incoming : Incoming) → P.carries part.old incoming → memory.new ≡ overwritten ((P.shape part.old).plain incoming output) memory.old }
    ensures length { (incoming : Incoming) → P.carries part.old incoming → length ((P.shape part.old).plain incoming output) ≡ bytes }
    ensures carried { (incoming : Incoming) → P.carries part.old incoming → P.carries part.new incoming }
    ensures outputs { (output : ℕ) → P.can_put part.old output → P.can_put part.new output }
    ensures rest { P.rest part.new ≡ P.rest part.old }
    ensures left { P.left part.new ≡ P.left part.old }
    ensures kept { P.kept part.new ≡ P.kept part.old }
    ensures writing { P.writing part.new ≡ P.writing part.old }
    ensures object { P.keeps part.old part.new }
{
    part.put(output, &mut memory[..bytes]);
}

/// Puts an output's frames into its header.
fn fill_header<P: KindPart>(
    part: &mut P,
    header: &mut Header,
    frames: u32,
    frame: usize,
    output: u32,
    over: bool,
)
    requires some { 1 ≤ frame }
    requires room { frames ≤ header.old.held.size / frame }
    requires stepped { P.can_put part.old output }
    requires whole { frames * frame ≡ (P.sizes part.old).output }
    ensures shape { P.shape part.new ≡ P.shape part.old }
    ensures terms { P.terms part.new ≡ P.terms part.old }
    ensures fits { P.is_ready part.new ↔ P.is_ready part.old }
    ensures failed { P.failed part.new ≡ P.failed part.old }
    ensures sizes { P.sizes part.new ≡ P.sizes part.old }
    ensures filled { (incoming : Incoming) → P.carries part.old incoming → header.new ≡ filled ((P.shape part.old).plain incoming output) (eos_flags over) header.old }
    ensures carried { (incoming : Incoming) → P.carries part.old incoming → P.carries part.new incoming }
    ensures outputs { (output : ℕ) → P.can_put part.old output → P.can_put part.new output }
    ensures rest { P.rest part.new ≡ P.rest part.old }
    ensures left { P.left part.new ≡ P.left part.old }
    ensures kept { P.kept part.new ≡ P.kept part.old }
    ensures writing { P.writing part.new ≡ P.writing part.old }
    ensures object { P.keeps part.old part.new }
{
    let bytes = front_bytes(frames, frame, header.size() as usize);
    let memory = header.refill(bytes as u32, eos_flags(over));
    put_front(part, memory, bytes, output);
}

/// The flag of the stream's end, where it has come.
fn eos_flags(over: bool) -> u32
    ensures { result ≡ eos_flags over }
{
    if over { 1 } else { 0 }
}

/// Takes the frames of an input's header that has some.
fn take_header<P: KindPart>(part: &mut P, header: &Header, layout: Layout, frames: u32, port: u32)
    requires layout { IsLaidOut layout (P.terms part.old) (P.shape part.old) }
    requires open { port < layout.inputs → P.can_take part.old port }
    requires sizes { P.sizes part.old ≡ sizes_of (P.shape part.old) frames }
    requires enough { is_last (P.terms part.old) 0 (carried port header.now) ≡ false → frames ≤ frames_at (P.terms part.old) (carried port header.now) }
    ensures shape { P.shape part.new ≡ P.shape part.old }
    ensures terms { P.terms part.new ≡ P.terms part.old }
    ensures fits { P.is_ready part.new ↔ P.is_ready part.old }
    ensures failed { P.failed part.new ≡ P.failed part.old }
    ensures sizes { P.sizes part.new ≡ P.sizes part.old }
    ensures came { (incoming : Incoming) → P.carries part.old incoming → P.carries part.new (taken_at (P.terms part.old) frames port header.now incoming) }
    ensures others { (other : ℕ) → port < other → P.can_take part.old other → P.can_take part.new other }
    ensures begun { P.can_step part.old → P.can_step part.new }
    ensures rest { P.rest part.new ≡ P.rest part.old }
    ensures left { P.left part.new ≡ P.left part.old }
    ensures kept { P.kept part.new ≡ P.kept part.old }
    ensures writing { P.writing part.new ≡ P.writing part.old }
    ensures object { P.keeps part.old part.new }
    ensures causes { (after : P) (fault : Fault) → P.has_cause part.new after fault → P.has_cause part.old after fault }
{
    if port < layout.inputs && !is_last(layout, 0, port, header) {
        part.take(port, front(header, frames, layout.input_frame));
    }
}

/// Takes the frames of each input's header, from this port on.
fn take_headers<P: KindPart>(
    part: &mut P,
    places: &[Option<Header>],
    layout: Layout,
    frames: u32,
    port: u32,
)
    requires few { port + length places.now ≤ 9 }
    requires layout { IsLaidOut layout (P.terms part.old) (P.shape part.old) }
    requires open { (input : ℕ) → port ≤ input → input < layout.inputs → P.can_take part.old input }
    requires sizes { P.sizes part.old ≡ sizes_of (P.shape part.old) frames }
    requires enough { Offer (P.terms part.old) frames port places.now }
    ensures shape { P.shape part.new ≡ P.shape part.old }
    ensures terms { P.terms part.new ≡ P.terms part.old }
    ensures fits { P.is_ready part.new ↔ P.is_ready part.old }
    ensures failed { P.failed part.new ≡ P.failed part.old }
    ensures sizes { P.sizes part.new ≡ P.sizes part.old }
    ensures came { (incoming : Incoming) → P.carries part.old incoming → P.carries part.new (taken_from (P.terms part.old) frames port places.now incoming) }
    ensures begun { P.can_step part.old → P.can_step part.new }
    ensures rest { P.rest part.new ≡ P.rest part.old }
    ensures left { P.left part.new ≡ P.left part.old }
    ensures kept { P.kept part.new ≡ P.kept part.old }
    ensures writing { P.writing part.new ≡ P.writing part.old }
    ensures object { P.keeps part.old part.new }
    ensures causes { (after : P) (fault : Fault) → P.has_cause part.new after fault → P.has_cause part.old after fault }
{
    match places {
        [] => {}
        [Some(header), rest @ ..] => {
            take_header(part, header, layout, frames, port);
            take_headers(part, rest, layout, frames, port + 1);
        }
        [None, rest @ ..] => take_headers(part, rest, layout, frames, port + 1),
    }
}

/// Takes the frames of the step out of an input's header, or puts those that the part made into an output's.
fn put_header<P: KindPart>(
    part: &mut P,
    header: &mut Header,
    layout: Layout,
    frames: u32,
    port: u32,
    over: bool,
)
    requires layout { IsLaidOut layout (P.terms part.old) (P.shape part.old) }
    requires within { port < ports_of (P.terms part.old) }
    requires stepped { (output : ℕ) → output < (P.shape part.old).outputs → P.can_put part.old output }
    requires sizes { P.sizes part.old ≡ sizes_of (P.shape part.old) frames }
    requires enough { is_last (P.terms part.old) 0 (carried port header.old) ≡ false → frames ≤ frames_at (P.terms part.old) (carried port header.old) }
    ensures shape { P.shape part.new ≡ P.shape part.old }
    ensures terms { P.terms part.new ≡ P.terms part.old }
    ensures fits { P.is_ready part.new ↔ P.is_ready part.old }
    ensures failed { P.failed part.new ≡ P.failed part.old }
    ensures sizes { P.sizes part.new ≡ P.sizes part.old }
    ensures stepped { (incoming : Incoming) → P.carries part.old incoming
        → header.new ≡ stepped_header (P.terms part.old) (P.shape part.old) frames incoming over port header.old }
    ensures carried { (incoming : Incoming) → P.carries part.old incoming → P.carries part.new incoming }
    ensures outputs { (output : ℕ) → P.can_put part.old output → P.can_put part.new output }
    ensures rest { P.rest part.new ≡ P.rest part.old }
    ensures left { P.left part.new ≡ P.left part.old }
    ensures kept { P.kept part.new ≡ P.kept part.old }
    ensures writing { P.writing part.new ≡ P.writing part.old }
    ensures object { P.keeps part.old part.new }
{
    if port < layout.inputs {
        empty_header(header, frames, layout.input_frame);
    } else {
        let output = port - layout.inputs;
        fill_header(part, header, frames, layout.output_frame, output, over);
    }
}

/// The same where the port gave a header.
fn put_place<P: KindPart>(
    part: &mut P,
    place: &mut Option<Header>,
    layout: Layout,
    frames: u32,
    port: u32,
    over: bool,
)
    requires layout { IsLaidOut layout (P.terms part.old) (P.shape part.old) }
    requires within { EachAt (λ port h. port < ports_of (P.terms part.old)) port place.old }
    requires stepped { (output : ℕ) → output < (P.shape part.old).outputs → P.can_put part.old output }
    requires sizes { P.sizes part.old ≡ sizes_of (P.shape part.old) frames }
    requires enough { EachAt (λ port h. is_last (P.terms part.old) 0 (carried port h) ≡ false → frames ≤ frames_at (P.terms part.old) (carried port h)) port place.old }
    ensures shape { P.shape part.new ≡ P.shape part.old }
    ensures terms { P.terms part.new ≡ P.terms part.old }
    ensures fits { P.is_ready part.new ↔ P.is_ready part.old }
    ensures failed { P.failed part.new ≡ P.failed part.old }
    ensures sizes { P.sizes part.new ≡ P.sizes part.old }
    ensures stepped { (incoming : Incoming) → P.carries part.old incoming
        → place.new ≡ option_map (stepped_header (P.terms part.old) (P.shape part.old) frames incoming over port) place.old }
    ensures carried { (incoming : Incoming) → P.carries part.old incoming → P.carries part.new incoming }
    ensures outputs { (output : ℕ) → P.can_put part.old output → P.can_put part.new output }
    ensures rest { P.rest part.new ≡ P.rest part.old }
    ensures left { P.left part.new ≡ P.left part.old }
    ensures kept { P.kept part.new ≡ P.kept part.old }
    ensures writing { P.writing part.new ≡ P.writing part.old }
    ensures object { P.keeps part.old part.new }
{
    match place {
        Some(header) => put_header(part, header, layout, frames, port, over),
        None => {}
    }
}

/// The same for each header, from this port on.
fn put_headers<P: KindPart>(
    part: &mut P,
    places: &mut [Option<Header>],
    layout: Layout,
    frames: u32,
    port: u32,
    over: bool,
)
    requires few { port + length places.old ≤ 9 }
    requires layout { IsLaidOut layout (P.terms part.old) (P.shape part.old) }
    requires within { AreWithin (ports_of (P.terms part.old)) port places.old }
    requires stepped { (output : ℕ) → output < (P.shape part.old).outputs → P.can_put part.old output }
    requires sizes { P.sizes part.old ≡ sizes_of (P.shape part.old) frames }
    requires enough { Offer (P.terms part.old) frames port places.old }
    ensures shape { P.shape part.new ≡ P.shape part.old }
    ensures terms { P.terms part.new ≡ P.terms part.old }
    ensures fits { P.is_ready part.new ↔ P.is_ready part.old }
    ensures failed { P.failed part.new ≡ P.failed part.old }
    ensures sizes { P.sizes part.new ≡ P.sizes part.old }
    ensures stepped { (incoming : Incoming) → P.carries part.old incoming
        → places.new ≡ changed_from (stepped_header (P.terms part.old) (P.shape part.old) frames incoming over) port places.old }
    ensures carried { (incoming : Incoming) → P.carries part.old incoming → P.carries part.new incoming }
    ensures rest { P.rest part.new ≡ P.rest part.old }
    ensures left { P.left part.new ≡ P.left part.old }
    ensures kept { P.kept part.new ≡ P.kept part.old }
    ensures writing { P.writing part.new ≡ P.writing part.old }
    ensures object { P.keeps part.old part.new }
{
    if let Some((place, rest)) = places.split_first_mut() {
        put_place(part, place, layout, frames, port, over);
        put_headers(part, rest, layout, frames, port + 1, over);
    }
}

/// One step: what comes in is taken, and what goes out is put, where the file doesn't fail. Answers its fault.
pub(crate) fn step_part<P: KindPart>(
    part: &mut P,
    places: &mut [Option<Header>],
    layout: Layout,
    frames: u32,
    over: bool,
) -> Option<PartFault>
    requires count { length places.old ≤ 9 }
    requires few { frames * (P.shape part.old).channels ≤ 4096 }
    requires fits { P.is_ready part.old }
    requires there { IfSome (P.left part.old) (λ there. frames ≤ there) }
    requires layout { IsLaidOut layout (P.terms part.old) (P.shape part.old) }
    requires within { AreWithin (ports_of (P.terms part.old)) 0 places.old }
    requires enough { Offer (P.terms part.old) frames 0 places.old }
    ensures shape { P.shape part.new ≡ P.shape part.old }
    ensures terms { P.terms part.new ≡ P.terms part.old }
    ensures failed { P.failed part.new ≡ is_some result }
    ensures sizes { IfNone result (P.sizes part.new ≡ sizes_of (P.shape part.old) frames) }
    ensures done { IfNone result ((mid : P) × (P.writing mid ≡ begun frames (P.writing part.old))
        × WasDone (P.terms part.old) (P.shape part.old) frames over
        (shown (P.left part.old) (P.rest part.old) (P.kept part.old) (P.writing part.old))
        (shown (P.left part.new) (P.rest part.new) (P.kept part.new) (P.writing part.new))
        (P.writes mid (came_in (P.terms part.old) (P.shape part.old) frames places.old)) (P.carries part.new) places.old places.new) }
    ensures broken { IfSome result (λ fault. (mid : P) × (P.writing mid ≡ begun frames (P.writing part.old))
        × WasBroken (shown (P.left part.old) (P.rest part.old) (P.kept part.old) (P.writing part.old))
        (shown (P.left part.new) (P.rest part.new) (P.kept part.new) (P.writing part.new))
        (P.writes mid (came_in (P.terms part.old) (P.shape part.old) frames places.old))) }
    ensures untouched { IfSome result (λ fault. places.new ≡ places.old) }
    ensures cause { IfSome result (P.has_cause part.old part.new) }
    ensures object { P.keeps part.old part.new }
    ensures shows { IfSome result (P.shows part.old part.new) }
{
    part.begin(frames);
    take_headers(part, places, layout, frames, 0);
    if let Some(fault) = part.step() {
        return Some(fault);
    }
    put_headers(part, places, layout, frames, 0, over);
    None
}
