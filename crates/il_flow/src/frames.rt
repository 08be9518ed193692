//! The frames of a step, and what they leave.
ghost use Rattle.std.specs.Prelude.{◌≡◌, ◌+◌, ◌<◌, ◌≤◌, ℕ, not, ◌||◌, length};
ghost use Rattle.std.specs.List.{list_all};
ghost use Rattle.part_api.specs.Terms.{Terms};
ghost use Rattle.il_machine.specs.Stepping.{all_frames_at, frames_at, has_input, is_drained, is_in, is_last};
ghost use Rattle.il_flow.specs.Layouts.{AreLaid, HasLayout, ports_of};
ghost use Rattle.il_flow.specs.Places.{AreWithin, carried, carried_from};
ghost use Rattle.il_flow.specs.Steps.{frames_by, lower_of, lowest, over_by};

use crate::layout::Layout;
use header_core::Header;

/// Whether an input's header has no frames, once so many were taken.
pub(crate) fn is_drained(layout: Layout, frames: u64, port: u32, header: &Header) -> bool
    ensures { (t : Terms) → HasLayout layout t → result ≡ is_drained t frames (carried port header.now) }
{
    let left = header.content().len() / layout.input_frame;
    port < layout.inputs && (left as u64).saturating_sub(frames) == 0
}

/// Whether it is drained by that, and has the flag of the stream's end.
pub(crate) fn is_last(layout: Layout, frames: u64, port: u32, header: &Header) -> bool
    ensures { (t : Terms) → HasLayout layout t → result ≡ is_last t frames (carried port header.now) }
{
    is_drained(layout, frames, port, header) && header.flags() % 2 == 1
}

/// The frames that are in an input's header, or for which an output's has room.
fn frames_at(layout: Layout, port: u32, header: &Header) -> u64
    ensures { (t : Terms) → HasLayout layout t → port < ports_of t → result ≡ frames_at t (carried port header.now) }
{
    let frames = if port < layout.inputs {
        header.content().len() / layout.input_frame
    } else {
        header.size() as usize / layout.output_frame
    };
    frames as u64
}

fn lower(least: Option<u64>, frames: u64) -> u64
    ensures { result ≡ lower_of least frames }
{
    match least {
        Some(least) => least.min(frames),
        None => frames,
    }
}

/// The least that the headers offer, from this port on, and the least before.
fn least_frames(
    layout: Layout,
    places: &[Option<Header>],
    port: u32,
    least: Option<u64>,
) -> Option<u64>
    requires { port + length places.now ≤ 9 }
    ensures { (t : Terms) → HasLayout layout t → AreWithin (ports_of t) port places.now → result ≡ lowest least (all_frames_at t (carried_from port places.now)) }
{
    match places {
        [] => least,
        [Some(header), rest @ ..] if !is_last(layout, 0, port, header) => {
            let frames = lower(least, frames_at(layout, port, header));
            least_frames(layout, rest, port + 1, Some(frames))
        }
        [_, rest @ ..] => least_frames(layout, rest, port + 1, least),
    }
}

/// Whether an input still gives frames.
fn has_input(layout: Layout, places: &[Option<Header>], port: u32) -> bool
    requires { port + length places.now ≤ 9 }
    ensures { (t : Terms) → HasLayout layout t → result ≡ has_input t (carried_from port places.now) }
{
    match places {
        [] => false,
        [Some(header), ..] if port < layout.inputs && !is_last(layout, 0, port, header) => true,
        [_, rest @ ..] => has_input(layout, rest, port + 1),
    }
}

/// The frames of the step.
pub(crate) fn step_frames(left: Option<u64>, layout: Layout, places: &[Option<Header>]) -> u64
    requires { length places.now ≤ 9 }
    ensures { (t : Terms) → HasLayout layout t → AreWithin (ports_of t) 0 places.now → result ≡ frames_by left t (carried_from 0 places.now) }
{
    match left {
        Some(left) => least_frames(layout, places, 0, Some(left)).unwrap_or(0),
        None if has_input(layout, places, 0) => least_frames(layout, places, 0, None).unwrap_or(0),
        None => 0,
    }
}

/// Whether each input's header is the last one, once so many frames were taken.
fn are_last(layout: Layout, frames: u64, places: &[Option<Header>], port: u32) -> bool
    requires { port + length places.now ≤ 9 }
    ensures { (t : Terms) → AreLaid layout t port places.now → result ≡ list_all (λ x. not (is_in t x) || is_last t frames x) (carried_from port places.now) }
{
    match places {
        [] => true,
        [Some(header), ..] if port < layout.inputs && !is_last(layout, frames, port, header) =>
            false,
        [_, rest @ ..] => are_last(layout, frames, rest, port + 1),
    }
}

/// Whether the part is over, once so many frames were taken.
pub(crate) fn is_over(
    left: Option<u64>,
    layout: Layout,
    frames: u64,
    places: &[Option<Header>],
) -> bool
    requires { length places.now ≤ 9 }
    ensures { (t : Terms) → AreLaid layout t 0 places.now → result ≡ over_by left t frames (carried_from 0 places.now) }
{
    match left {
        Some(left) => left.saturating_sub(frames) == 0,
        None => are_last(layout, frames, places, 0),
    }
}
