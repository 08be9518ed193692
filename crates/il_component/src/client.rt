//! The component's notes and its client object, its parameters and its tunnels.

ghost use Rattle.std.specs.Prelude.{◌≡◌, ◌<◌, ◌*◌, ◌||◌, true, false, is_none, Some, None, IsSome, option_map};
ghost use Rattle.il_machine.specs.Kinds.{ports_in};
ghost use Rattle.il_machine.specs.Settings.{set_refusal, value_of, refused_or, with_setting, changed_by};
ghost use Rattle.il_machine.specs.World.{with_port};
ghost use Rattle.il_machine.specs.Parameters.{is_format_free, get_parameter_refusal, set_config_refusal, with_value};
ghost use Rattle.note_queues.specs.Queues.{took, after_taking, header_notes, header_note, noted, with_client};
ghost use Rattle.il_component.specs.Entries.{component_of, KeepsNotices};
ghost use Rattle.il_component.specs.PortChanges.{linked, unlinked, let_go_by};

use crate::component::Component;
use header_core::Header;
use il_machine::{Link, PortSetting, Progress};
use note_queues::{Client, Took};
use omx_types::{OmxError, Param, ParamKey};

impl<C> Component<C> {
    /// Moves the oldest note out, with the client object.
    pub fn take(&mut self) -> Took<C>
        ensures took { result ≡ took self.old.queues }
        ensures left { self.new ≡ record self.old { queues = after_taking self.old.queues } }
    {
        self.notes.take_call()
    }

    /// Puts the client object back.
    pub fn put_client(&mut self, client: C)
        requires { is_none self.old.queues.client ≡ true }
        ensures { self.new ≡ record self.old { queues = with_client client self.old.queues } }
    {
        self.notes.put_client(client);
    }

    /// Queues a header that comes back to the client.
    pub fn put_header(&mut self, input: bool, header: Header)
        requires { header_notes self.old.queues < 32 * ports_in self.old.settings.kind }
        ensures { self.new ≡ record self.old { queues = noted (header_note input header) self.old.queues } }
    {
        self.notes.push_header(input, header);
    }

    /// Ends the component and gives its client object back. Its commands and events are dropped.
    pub fn close(self) -> C
        requires client { IsSome self.queues.client }
        requires headers { header_notes self.queues ≡ 0 }
        ensures { Some result ≡ self.queues.client }
    {
        let Component {
            handle: _,
            params: _,
            state: _,
            pending: _,
            loss_mark: _,
            holds: _,
            waiting: _,
            work: _,
            file: _,
            ended_inputs: _,
            ended: _,
            failed: _,
            ports: _,
            busy: _,
            notes,
        } = self;
        notes.close()
    }

    /// The value of a parameter, or of a config.
    pub fn get(&self, key: ParamKey, config: bool) -> Result<Param, OmxError>
        ensures { result ≡ refused_or (get_parameter_refusal (component_of self.now) key config) (value_of self.now.settings key) }
    {
        if self.is_invalid() {
            return Err(OmxError::InvalidState);
        }
        self.params.get(key, config)
    }

    /// Why the value of the key can't be set, if it can't, beside the component's state and its ports.
    pub fn settings_refusal(&self, key: ParamKey, config: bool, value: Param) -> Option<OmxError>
        ensures { result ≡ set_refusal self.now.settings key config value (config || is_format_free (component_of self.now) key.port value) }
    {
        self.params
            .set_refusal(key, config, value, self.is_free(key, config, value))
    }

    /// Why a config can't be set, if it can't.
    pub fn set_config_refusal(&self, key: ParamKey, value: Param) -> Option<OmxError>
        ensures { result ≡ set_config_refusal (component_of self.now) key value }
    {
        if self.is_invalid() {
            return Some(OmxError::InvalidState);
        }
        self.settings_refusal(key, true, value)
    }

    /// Sets a parameter or a config that may be set.
    pub fn set_value(&mut self, key: ParamKey, config: bool, value: Param)
        requires { set_refusal self.old.settings key config value (config || is_format_free (component_of self.old) key.port value) ≡ None }
        ensures component { component_of self.new ≡ with_value key value (component_of self.old) }
        ensures kept { KeepsNotices self.old self.new }
    {
        let free = self.is_free(key, config, value);
        self.let_go(key);
        self.put_value(key, config, value, free);
    }

    /// A port whose definition is set is held no more.
    fn let_go(&mut self, key: ParamKey)
        ensures component { component_of self.new ≡ let_go_by key (component_of self.old) }
        ensures kept { KeepsNotices self.old self.new }
    {
        if key.index == 1 && key.port < self.params.ports() {
            self.ports[key.port as usize].held = false;
        }
    }

    fn put_value(&mut self, key: ParamKey, config: bool, value: Param, free: bool)
        requires { set_refusal self.old.settings key config value free ≡ None }
        ensures component { component_of self.new ≡ record (component_of self.old) { settings = changed_by key.port value self.old.settings } }
        ensures kept { KeepsNotices self.old self.new }
    {
        match self.params.set(key, config, value, free) {
            Ok(()) => {}
            Err(_) => unreachable!(),
        }
    }

    /// Joins the port to another, with the setting that both then have.
    pub fn join(&mut self, index: u32, setting: PortSetting, link: Link)
        requires { index < ports_in self.old.settings.kind }
        ensures component { component_of self.new ≡ linked index setting link (component_of self.old) }
        ensures kept { KeepsNotices self.old self.new }
    {
        self.params.set_setting(index, setting);
        self.ports[index as usize].link = Some(link);
    }

    /// Parts the port from its peer.
    pub fn part(&mut self, index: u32)
        requires { index < ports_in self.old.settings.kind }
        ensures component { component_of self.new ≡ unlinked index (component_of self.old) }
        ensures kept { KeepsNotices self.old self.new }
    {
        self.ports[index as usize].link = None;
    }
}

impl<C: Client> Component<C> {
    /// What the client object was told so far, or None where it is out.
    pub fn progress(&self) -> Option<Progress>
        ensures { result ≡ option_map C.progress self.now.queues.client }
    {
        self.notes.progress()
    }
}
