//! The work of a component comes back.
ghost use Rattle.std.specs.Prelude.{◌≡◌, ◌+◌, ◌*◌, ◌<◌, ◌≤◌, ◌++◌, ◌||◌, ℕ, List, [], length, take, IsSomeAnd, true, is_none, is_some};
ghost use Rattle.omx_types.specs.declared.command.Note.{Note};
ghost use Rattle.il_machine.specs.Census.{note_numbers};
ghost use Rattle.il_machine.specs.Due.{with_part};
ghost use Rattle.il_machine.specs.Finishing.{end_note, error_of, fault_note, notes_after, stepped_back};
ghost use Rattle.il_machine.specs.Kinds.{is_sink, is_source, ports_in};
ghost use Rattle.il_machine.specs.Parts.{terms_of};
ghost use Rattle.il_machine.specs.Room.{room};
ghost use Rattle.il_machine.specs.World.{Stream};
ghost use Rattle.port_stock.specs.Kept.{stocked};
ghost use Rattle.il_component.specs.Entries.{component_of, held_in, KeepsNotices};
ghost use Rattle.work_landing.specs.Places.{HaveOwnHeaders, AreFree, carried_from};
ghost use Rattle.work_landing.specs.Returning.{GetsNotes, ended_by, ends_by, known_by, over_by, part_by};
ghost use Rattle.work_landing.specs.Landed.{AreHomeless, AreWays, AreWithin, IsLeft, all_landed, all_notices, done_by};

use crate::back::{Known, Way};
use crate::ending::{all_end, ends, has_last};
use crate::places::Places;
use crate::returning::{bring_places, mark_from};
use header_core::Header;
use il_component::Component;
use omx_types::{Event, Handle, Kind, OmxError, PartFault};
use port_stock::Stock;

/// What a step came to.
#[derive(Clone, Copy)]
pub struct Step {
    pub frames: u32,
    pub fault: Option<PartFault>,
    /// The frames that the file of a source still gives.
    pub left: u64,
}

fn error_of(fault: PartFault) -> OmxError
    ensures { result ≡ error_of fault }
{
    match fault {
        PartFault::Read | PartFault::Write => OmxError::Hardware,
        PartFault::Short { .. } => OmxError::StreamCorrupt,
    }
}

fn is_source(kind: Kind) -> bool
    ensures { result ≡ is_source kind }
{
    matches!(kind, Kind::Source | Kind::Late)
}

fn is_sink(kind: Kind) -> bool
    ensures { result ≡ is_sink kind }
{
    matches!(kind, Kind::Sink)
}

/// Whether the part has ended, once its step was done.
fn is_over(kind: Kind, ways: &[Way], places: &[Option<Header>], step: Step) -> bool
    ensures { result ≡ over_by kind ways.now places.now step }
{
    if step.fault.is_some() {
        false
    } else if is_source(kind) {
        step.left == 0
    } else {
        all_end(ways, places)
    }
}

/// Whether a sink's stream has ended in the step.
fn ends_stream(kind: Kind, ways: &[Way], places: &[Option<Header>], step: Step) -> bool
    ensures value { result ≡ ends_by kind ways.now places.now step }
    ensures one { result ≡ true → is_none step.fault ≡ true }
{
    is_sink(kind) && step.fault.is_none() && has_last(ways, places)
}

/// What is known of the step, once it is known whether the part has ended.
fn known_of(
    component: Handle,
    ways: &[Way],
    places: &[Option<Header>],
    step: Step,
    over: bool,
) -> Known
    ensures { result ≡ known_by component over ways.now places.now step }
{
    let failed = step.fault.is_some();
    Known {
        component,
        failed,
        filled: 0 < step.frames || over,
        mark: mark_from(ways, failed, component, places),
    }
}

/// Keeps of each input from this one on whether it has ended.
fn set_ends<C>(component: &mut Component<C>, ways: &[Way], places: &[Option<Header>], input: u32)
    requires count { length component.old.part.ended_inputs ≡ input + length (ended_by ways.now places.now) }
    requires few { input + length ways.now ≤ 9 }
    ensures component { component_of component.new ≡ with_part (record component.old.part { ended_inputs = take input component.old.part.ended_inputs ++ ended_by ways.now places.now }) (component_of component.old) }
    ensures kept { KeepsNotices component.old component.new }
{
    let [way, ways @ ..] = ways else {
        return;
    };
    let [place, places @ ..] = places else {
        return;
    };
    if way.input {
        component.set_ended(input, ends(*way, place));
        set_ends(component, ways, places, input + 1);
    }
}

/// Keeps what has ended, or that the part has failed.
fn keep_ends<C>(
    component: &mut Component<C>,
    ways: &[Way],
    places: &[Option<Header>],
    step: Step,
    over: bool,
)
    requires count { length component.old.part.ended_inputs ≡ length (ended_by ways.now places.now) }
    requires few { length ways.now ≤ 9 }
    ensures component { component_of component.new ≡ with_part (part_by step.fault (ended_by ways.now places.now) over component.old.part) (component_of component.old) }
    ensures kept { KeepsNotices component.old component.new }
{
    if step.fault.is_some() {
        component.fail_part();
        return;
    }
    set_ends(component, ways, places, 0);
    component.end_part(over);
}

/// Tells the end of a sink's stream, or the fault.
fn tell_end<C>(component: &mut Component<C>, ends: bool, fault: Option<PartFault>)
    requires room { 0 < room (component_of component.old) }
    requires one { ends ≡ true → is_none fault ≡ true }
    ensures { GetsNotes component.old component.new (end_note ends ++ fault_note fault) [] }
{
    match fault {
        Some(fault) => component.queue_event(Event::Error(error_of(fault))),
        None if ends => component.queue_event(Event::BufferFlag { port: 0, flags: 1 }),
        None => {}
    }
}

/// The work of the component comes back from a step: its headers land by rising port, each told of its own mark before, and behind them
/// the end of a sink's stream or the fault is told. `ways` says of each port how it takes headers back.
pub fn come_back<C>(
    stock: &mut Stock,
    component: &mut Component<C>,
    places: &mut Places,
    ways: &[Way],
    step: Step,
)
    requires work { IsSomeAnd component.old.work (λ work. length work.headers ≡ length (carried_from 0 places.old)) }
    requires ways { AreWays (component_of component.old) 0 ways.now }
    requires few { length ways.now ≤ 9 }
    requires inputs { length (terms_of (component_of component.old)).inputs ≤ length ways.now }
    requires count { length component.old.part.ended_inputs ≡ length (terms_of (component_of component.old)).inputs }
    requires within { AreWithin (length ways.now) 0 places.old }
    requires homeless { AreHomeless component.old.handle.generation 0 places.old (stocked stock.old) }
    requires apart { HaveOwnHeaders places.old }
    requires notes { (s : Stream) × (took : List ℕ) × (IsLeft (component_of component.old) s (done_by component.old.handle.generation places.old step took) step
        × (length (note_numbers ((component_of component.old).notes ++ notes_after (component_of component.old) s (done_by component.old.handle.generation places.old step took))) ≤ 32 * ports_in component.old.settings.kind)) }
    ensures component { (s : Stream) (took : List ℕ) → IsLeft (component_of component.old) s (done_by component.old.handle.generation places.old step took) step
        → component_of component.new ≡ stepped_back (component_of component.old) s (done_by component.old.handle.generation places.old step took) }
    ensures client { component.new.queues.client ≡ component.old.queues.client }
    ensures notices { (s : Stream) (took : List ℕ) → IsLeft (component_of component.old) s (done_by component.old.handle.generation places.old step took) step
        → held_in component.new.queues.notes ≡ held_in component.old.queues.notes ++ all_notices (component_of component.old) s (done_by component.old.handle.generation places.old step took) 0 places.old }
    ensures stock { (s : Stream) (took : List ℕ) → IsLeft (component_of component.old) s (done_by component.old.handle.generation places.old step took) step
        → stocked stock.new ≡ all_landed (component_of component.old) s (done_by component.old.handle.generation places.old step took) (carried_from 0 places.old) (stocked stock.old) }
    ensures free { AreFree places.new }
{
    let kind = component.kind();
    let over = is_over(kind, ways, places, step);
    let ends = ends_stream(kind, ways, places, step);
    let known = known_of(component.handle(), ways, places, step, over);
    component.take_work();
    keep_ends(component, ways, places, step, over);
    bring_places(stock, component, places, ways, known, 0);
    tell_end(component, ends, step.fault);
}
