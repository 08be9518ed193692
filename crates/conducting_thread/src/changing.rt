//! A step of the change of a late source's link: its ports are disabled; its tunnel is dropped and set up again with the file's format at
//! both ends; its ports are enabled (OpenMAX IL 1.1.2, `OMX_CommandPortDisable`, `OMX_CommandPortEnable`).

ghost use Rattle.std.specs.Prelude.{◌≡◌, All, List, map};
ghost use Rattle.il_machine.specs.Acts as acts;
ghost use Rattle.conductor.specs.declared.phase.Phase.TheVariants as phases;
ghost use Rattle.play_forms.specs.Plans.{IsValid};
ghost use Rattle.play_plan_laws.specs.Assemblies.{PlayFiles};
ghost use Rattle.play_result_laws.specs.Rounds.{AreMade};
ghost use Rattle.graph_acts.specs.Plain.{sight_of};
ghost use Rattle.board.specs.Boards.{own_calls};
ghost use Rattle.pass_book.specs.Books.{IsBook};
ghost use Rattle.conducting_thread.specs.Asking.{AreAnswered, IsRequestOf, Keeps, due};
ghost use Rattle.conducting_thread.specs.Changing.{change_acts, disabling, enabling, setting};
ghost use Rattle.conducting_thread.specs.Knowing.{GivesInto};
ghost use Rattle.work_signs.specs.Seats.{handles_of};
ghost use Rattle.conducting_thread.specs.Seating.{AreSeatsFor};

use crate::asking::ask_all;
use crate::link_ends::{LinkEnds, ends_of, link_from};
use board::Board;
use conductor::ChangeStep;
use note_queues::Client;
use omx_types::{Command, Param, ParamKey, PortDefinition, PortId, PortSel, Version};
use outside_io::{Sink, Source};
use pass_book::{Book, QuietAct};
use std::sync::Wait;
use stream_plan::Plan;
use work_signs::Seat;

fn disabling(port: PortId) -> QuietAct
    ensures { result ≡ disabling port }
{
    QuietAct::SendCommand(port.handle, Command::PortDisable(PortSel::One(port.index)))
}

fn enabling(port: PortId) -> QuietAct
    ensures { result ≡ enabling port }
{
    QuietAct::SendCommand(port.handle, Command::PortEnable(PortSel::One(port.index)))
}

fn setting(port: PortId, definition: PortDefinition) -> QuietAct
    ensures { result ≡ setting port definition }
{
    let key = ParamKey {
        version: Version::V112,
        index: 1,
        port: port.index,
    };
    QuietAct::SetParameter(port.handle, key, Param::Port(definition))
}

/// Makes the step on the link with these ends, up to the first request that isn't accepted: whether all were.
fn make_step<S: Source, K: Sink, C: Client, R: Wait>(
    book: &mut Book<S, K, C>,
    rt: &R,
    board: &Board<S, K, C>,
    seats: &[Seat],
    ends: LinkEnds,
    step: ChangeStep,
) -> bool
    requires book { IsBook board.now seats.now book.old }
    requires requests { All (IsRequestOf seats.now) (change_acts ends step) }
    ensures keeps { Keeps C.progress board.now seats.now book.old book.new }
    ensures answered { AreAnswered (sight_of C.Client S.Source K.Sink) (own_calls book.old.pass) (map due (change_acts ends step)) result (own_calls book.new.pass) }
{
    match step {
        ChangeStep::Disable => {
            let requests = [disabling(ends.output), disabling(ends.input)];
            ask_all(book, rt, board, seats, &requests)
        }
        ChangeStep::Retune => {
            let requests = [
                QuietAct::DropTunnel(ends.output, ends.input),
                setting(ends.output, ends.given),
                setting(ends.input, ends.taken),
                QuietAct::SetupTunnel(ends.output, ends.input),
            ];
            ask_all(book, rt, board, seats, &requests)
        }
        ChangeStep::Enable => {
            let requests = [enabling(ends.output), enabling(ends.input)];
            ask_all(book, rt, board, seats, &requests)
        }
    }
}

/// Makes the step on the link of the late source at that place, up to the first request that isn't accepted: whether all were.
pub fn change<S: Source, K: Sink, C: Client, R: Wait>(
    book: &mut Book<S, K, C>,
    rt: &R,
    board: &Board<S, K, C>,
    plan: &Plan,
    seats: &[Seat],
    component: u32,
    step: ChangeStep,
) -> bool
    requires book { IsBook board.now seats.now book.old }
    requires valid { IsValid plan.now }
    requires seats { AreSeatsFor plan.now seats.now }
    requires gives { GivesInto plan.now component }
    ensures keeps { Keeps C.progress board.now seats.now book.old book.new }
    ensures answered { (files : PlayFiles) → (due : List (acts.Act × acts.Reply)) × AreMade plan.now files (handles_of seats.now) (phases.Change component step) due × AreAnswered (sight_of C.Client S.Source K.Sink) (own_calls book.old.pass) due result (own_calls book.new.pass) }
{
    let link = link_from(plan, component);
    let ends = ends_of(plan, seats, link);
    make_step(book, rt, board, seats, ends, step)
}
