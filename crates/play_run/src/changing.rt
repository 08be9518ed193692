//! A late source's link is changed: its ports are disabled, its tunnel is dropped and set up again with the file's format at both ends,
//! and its ports are enabled (OpenMAX IL 1.1.2, `OMX_CommandPortDisable`, `OMX_CommandPortEnable`). None of these calls is refused, so what they answer isn't asked.

ghost use Rattle.std.specs.Prelude.{◌≡◌, ◌+◌, ◌<◌, ◌≤◌, ℕ, Ok, length};
ghost use Rattle.il_machine.specs.Acts as acts;
ghost use Rattle.il_graph.specs.Shown.{KeepsAllFiles};
ghost use Rattle.conductor.specs.declared.phase.ChangeStep.TheVariants.{Disable, Enable, Retune};
ghost use Rattle.play_world_laws.specs.Conducting.{definition_key, planned, port_command};
ghost use Rattle.play_log.specs.Said.{SaysOf};
ghost use Rattle.play_plan_laws.specs.Assemblies.{play_cast_of};
ghost use Rattle.play_forms.specs.Plans.{IsValid};
ghost use Rattle.play_plan_laws.specs.Casting.{joint_of};
ghost use Rattle.play_graph.specs.Graphs.{IsHandleAt};
ghost use Rattle.play_graph.specs.LinkEnds.{at_output, index_by, place_by};
ghost use Rattle.play_run.specs.Playing.{HasParts};
ghost use Rattle.play_run.specs.Recording.{IsNameAt};
ghost use Rattle.play_run.specs.Changing.{CanChange, CanChangeFrom, ChangedFrom, ChangesTo, IsLinkFrom, sending, sent_as, set_as};

use crate::lines::{log_act, port_at};
use crate::playing::Playing;
use act_text::{ActText, PortName};
use conductor::ChangeStep;
use il_graph::{Command, Param, ParamKey, PortDefinition, PortId, PortSel, Supplier, Version};
use outside_io::{Sink, Source};
use play_graph::{End, index_at, is_input, place_at};
use play_log::texts::{disabled, dropped, enabled, joined, set_port};
use play_stream_laws::law_of_changed_streams;

/// The disable of the port, or its enable.
fn port_command(disables: bool, port: u32) -> Command
    ensures { result ≡ port_command disables port }
{
    if disables {
        Command::PortDisable(PortSel::One(port))
    } else {
        Command::PortEnable(PortSel::One(port))
    }
}

/// The log's text of that send.
fn port_sent(disables: bool, port: PortName) -> ActText
    ensures { SaysOf port.component result (λ h. acts.SendCommand h (port_command disables port.index)) (acts.Plain (Ok tt)) }
{
    if disables {
        disabled(port)
    } else {
        enabled(port)
    }
}

/// Names the definition of the port.
fn definition_key(port: u32) -> ParamKey
    ensures { result ≡ definition_key port }
{
    ParamKey {
        version: Version::V112,
        index: 1,
        port,
    }
}

impl<S: Source, K: Sink> Playing<S, K> {
    /// The link that the component gives into.
    fn link_from(&self, component: u32) -> u32
        requires few { length self.now.plan.joints ≤ 1024 }
        requires there { (l : ℕ) × IsLinkFrom self.now.plan component l }
        ensures { IsLinkFrom self.now.plan component result }
    {
        for link in 0..self.link_count() {
            if self.joint(link).giver == component {
                return link;
            }
        }
        unreachable!()
    }

    /// The port at the link's end.
    fn port(&self, link: u32, end: End) -> PortId
        requires there { link < length self.now.plan.joints }
        requires parts { HasParts self.now }
        ensures handle { IsHandleAt self.now.graph (place_by end (joint_of self.now.plan link)) result.handle }
        ensures index { result.index ≡ index_by end (joint_of self.now.plan link) }
    {
        let joint = self.joint(link);
        PortId {
            handle: self.handle(place_at(joint, end)),
            index: index_at(joint, end),
        }
    }

    /// The name of the port at the link's end.
    fn port_name(&self, link: u32, end: End) -> PortName
        requires there { link < length self.now.plan.joints }
        requires parts { HasParts self.now }
        ensures component { IsNameAt self.now.plan.parts (place_by end (joint_of self.now.plan link)) result.component }
        ensures index { result.index ≡ index_by end (joint_of self.now.plan link) }
    {
        let joint = self.joint(link);
        port_at(&self.plan, place_at(joint, end), index_at(joint, end))
    }

    /// What is set there: the format is that of the file.
    fn definition(&self, link: u32, end: End) -> PortDefinition
        requires there { link < length self.now.plan.joints }
        requires valid { IsValid self.now.plan }
        ensures { result ≡ planned (play_cast_of self.now.plan) (at_output end) link }
    {
        let joint = self.joint(link);
        let flow = self.plan.flows()[link as usize];
        PortDefinition {
            input: is_input(end),
            format: flow.format,
            count: joint.count,
            size: joint.size,
        }
    }

    /// The disable of the port at the link's end is sent; or its enable.
    fn send_port(&mut self, link: u32, end: End, disables: bool)
        requires { CanChange self.old link (sending disables) (sent_as end) }
        ensures plan { self.new.plan ≡ self.old.plan }
        ensures files { KeepsAllFiles self.old.graph self.new.graph }
        ensures changed { ChangesTo self.old self.new link (sending disables) (sent_as end) (sent_as end + 1) }
    {
        let port = self.port(link, end);
        let name = self.port_name(link, end);
        law_of_changed_streams();
        let _ = self
            .graph
            .send_command(port.handle, port_command(disables, port.index));
        log_act(&mut self.log, None, &port_sent(disables, name));
    }

    /// The link's tunnel is dropped.
    fn part(&mut self, link: u32)
        requires { CanChange self.old link Retune 0 }
        ensures plan { self.new.plan ≡ self.old.plan }
        ensures files { KeepsAllFiles self.old.graph self.new.graph }
        ensures changed { ChangesTo self.old self.new link Retune 0 1 }
    {
        let output = self.port(link, End::Output);
        let input = self.port(link, End::Input);
        let first = self.port_name(link, End::Output);
        let second = self.port_name(link, End::Input);
        law_of_changed_streams();
        let _ = self.graph.drop_tunnel(output, input);
        log_act(&mut self.log, None, &dropped(first, second));
    }

    /// The definition of the port at the link's end is set.
    fn set(&mut self, link: u32, end: End)
        requires { CanChange self.old link Retune (set_as end) }
        ensures plan { self.new.plan ≡ self.old.plan }
        ensures files { KeepsAllFiles self.old.graph self.new.graph }
        ensures changed { ChangesTo self.old self.new link Retune (set_as end) (set_as end + 1) }
    {
        let port = self.port(link, end);
        let name = self.port_name(link, end);
        let definition = self.definition(link, end);
        law_of_changed_streams();
        let _ = self.graph.set_parameter(
            port.handle,
            definition_key(port.index),
            Param::Port(definition),
        );
        log_act(
            &mut self.log,
            None,
            &set_port(name, definition.format, definition.count, definition.size),
        );
    }

    /// The link's tunnel is set up, whose headers its input makes.
    fn join(&mut self, link: u32)
        requires { CanChange self.old link Retune 3 }
        ensures plan { self.new.plan ≡ self.old.plan }
        ensures files { KeepsAllFiles self.old.graph self.new.graph }
        ensures changed { ChangesTo self.old self.new link Retune 3 4 }
    {
        let output = self.port(link, End::Output);
        let input = self.port(link, End::Input);
        let first = self.port_name(link, End::Output);
        let second = self.port_name(link, End::Input);
        law_of_changed_streams();
        let _ = self.graph.setup_tunnel(output, input);
        log_act(&mut self.log, None, &joined(first, second, Supplier::Input));
    }

    /// Both ports are to be disabled.
    fn disable(&mut self, link: u32)
        requires { CanChange self.old link Disable 0 }
        ensures plan { self.new.plan ≡ self.old.plan }
        ensures files { KeepsAllFiles self.old.graph self.new.graph }
        ensures changed { ChangesTo self.old self.new link Disable 0 2 }
    {
        self.send_port(link, End::Output, true);
        self.send_port(link, End::Input, true);
    }

    /// Both ports get the format of the file, while the tunnel is dropped.
    fn retune(&mut self, link: u32)
        requires { CanChange self.old link Retune 0 }
        ensures plan { self.new.plan ≡ self.old.plan }
        ensures files { KeepsAllFiles self.old.graph self.new.graph }
        ensures changed { ChangesTo self.old self.new link Retune 0 4 }
    {
        self.part(link);
        self.set(link, End::Output);
        self.set(link, End::Input);
        self.join(link);
    }

    /// Both ports are to be enabled.
    fn enable(&mut self, link: u32)
        requires { CanChange self.old link Enable 0 }
        ensures plan { self.new.plan ≡ self.old.plan }
        ensures files { KeepsAllFiles self.old.graph self.new.graph }
        ensures changed { ChangesTo self.old self.new link Enable 0 2 }
    {
        self.send_port(link, End::Output, false);
        self.send_port(link, End::Input, false);
    }

    /// The step is made on the link of the late source.
    pub(crate) fn change(&mut self, component: u32, step: ChangeStep)
        requires { CanChangeFrom self.old component step }
        ensures plan { self.new.plan ≡ self.old.plan }
        ensures files { KeepsAllFiles self.old.graph self.new.graph }
        ensures changed { ChangedFrom self.old self.new component step }
    {
        let link = self.link_from(component);
        match step {
            ChangeStep::Disable => self.disable(link),
            ChangeStep::Retune => self.retune(link),
            ChangeStep::Enable => self.enable(link),
        }
    }
}
