//! The settings of one component: their defaults, how they are got and set, and why that is refused.

ghost use Rattle.std.specs.Prelude.{◌≡◌, ◌<◌, ◌≤◌, All, Bool, Ok, Err, MatchOption, length, take, replicate, ◌++◌, false, true, None, slice_set};
ghost use Rattle.il_machine.specs.Kinds.{ports_in, inputs_of, outputs_of};
ghost use Rattle.il_machine.specs.Lists.{first_of_these};
ghost use Rattle.il_machine.specs.Settings.{IsSized, default_settings, default_setting, weights_in, setting_at, is_index_of, is_port_of, get_refusal, get_refusals, value_refusals, set_refusal, value_of, got, is_value_of, is_good_value, is_supported, changed_by, with_setting, fits};

use crate::{kinds, limits};
use il_machine::PortSetting;
use omx_types::{Kind, ONE, OmxError, Param, ParamKey, PortDefinition};
use std::marker::Model;

/// What a client sets of one component.
#[derive(Drop)]
pub struct Params {
    kind: Kind,
    ports: [PortSetting; 9],
    priority: u32,
    gain: u32,
    weights: [u32; 8],
}

impl Model for Params {
    ghost use Rattle.std.specs.Prelude.{◌≡◌, ◌≤◌, take, length, All};
    ghost use Rattle.il_machine.specs.Kinds.{ports_in};
    ghost use Rattle.il_machine.specs.Settings.{Settings, IsSized, weights_in};

    ghost Value = { Settings };

    ghost view = { λ p. record {
      kind = p.kind;
      ports = take (ports_in p.kind) p.ports;
      priority = p.priority;
      gain = p.gain;
      weights = take (weights_in p.kind) p.weights;
    } };

    ghost invariant = { λ p. (length p.ports ≡ 9) × IsSized p.kind × (p.gain ≤ 65535) × All (λ weight. weight ≤ 65535) p.weights };
}

fn default_ports(kind: Kind) -> [PortSetting; 9]
    requires { IsSized kind }
    ensures all { length result ≡ 9 }
    ensures ports { take (ports_in kind) result ≡ replicate (inputs_of kind) (default_setting kind true) ++ replicate (outputs_of kind) (default_setting kind false) }
{
    let mut settings = [kinds::default_setting(kind, false); 9];
    let input = kinds::default_setting(kind, true);
    for i in 0..kinds::inputs(kind) as usize {
        settings[i] = input;
    }
    settings
}

impl Params {
    /// The defaults of the kind.
    pub fn new(kind: Kind) -> Params
        requires { IsSized kind }
        ensures { result ≡ default_settings kind }
    {
        Params {
            kind,
            ports: default_ports(kind),
            priority: 128,
            gain: ONE,
            weights: [ONE; 8],
        }
    }

    /// The kind for which they are, which never changes.
    pub fn kind(&self) -> Kind
        ensures kind { result ≡ self.now.kind }
        ensures sized { IsSized result }
    {
        // The proof learns from it what always holds of the settings, so that the kind is sized.
        let _priority = &self.priority;
        self.kind
    }

    /// The priority, by which units are given: a smaller number is a greater priority.
    pub fn priority(&self) -> u32
        ensures { result ≡ self.now.priority }
    {
        self.priority
    }

    /// The gain in 4096ths; a kind without a gain keeps the default.
    pub fn gain(&self) -> u32
        ensures gain { result ≡ self.now.gain }
        ensures small { result ≤ 65535 }
    {
        self.gain
    }

    /// What is set of each port.
    pub fn settings(&self) -> &[PortSetting]
        ensures { result.now ≡ self.now.ports }
    {
        &self.ports[..kinds::ports(self.kind) as usize]
    }

    /// Its weights come first: those of a mixer's inputs.
    pub fn weights(&self) -> [u32; 8]
        ensures weights { take (weights_in self.now.kind) result ≡ self.now.weights }
        ensures small { All (λ weight. weight ≤ 65535) result }
    {
        self.weights
    }

    /// How many ports the component has.
    pub fn ports(&self) -> u32
        ensures count { result ≡ ports_in self.now.kind }
        ensures settings { result ≡ length self.now.ports }
        ensures few { result ≤ 9 }
    {
        kinds::ports(self.kind)
    }

    /// What is set of the port of this index.
    pub fn setting(&self, port: u32) -> PortSetting
        requires { port < ports_in self.now.kind }
        ensures { result ≡ setting_at self.now port }
    {
        self.ports[port as usize]
    }

    /// Whether the ports' formats fit each other.
    pub fn fits(&self) -> bool
        ensures { result ≡ fits self.now }
    {
        limits::are_fitting(self.kind, &self.ports[..kinds::ports(self.kind) as usize])
    }

    /// Whether they would fit with this definition of the port.
    pub fn would_fit(&self, port: u32, definition: PortDefinition) -> bool
        requires { port < ports_in self.now.kind }
        ensures { result ≡ fits (changed_by port (Param.Port definition) self.now) }
    {
        let mut setting = self.setting(port);
        setting.definition = definition;
        let mut ports = self.ports;
        ports[port as usize] = setting;
        limits::are_fitting(self.kind, &ports[..kinds::ports(self.kind) as usize])
    }

    fn is_index(&self, config: bool, index: u32) -> bool
        ensures { result ≡ is_index_of self.now.kind config index }
    {
        if config {
            (index == 4 && kinds::is_gain(self.kind)) || (index == 5 && kinds::is_mixer(self.kind))
        } else {
            index == 1 || index == 2 || index == 3
        }
    }

    fn is_port(&self, key: ParamKey) -> bool
        ensures { result ≡ is_port_of self.now.kind key }
    {
        if key.index == 3 || key.index == 4 {
            true
        } else if key.index == 5 {
            key.port < kinds::inputs(self.kind)
        } else {
            key.port < kinds::ports(self.kind)
        }
    }

    /// Why `get` is refused, if it is.
    pub fn get_refusal(&self, key: ParamKey, config: bool) -> Option<OmxError>
        ensures { result ≡ get_refusal self.now key config }
    {
        if !limits::is_v112(key.version) {
            Some(OmxError::VersionMismatch)
        } else if !self.is_index(config, key.index) {
            Some(OmxError::UnsupportedIndex)
        } else if !self.is_port(key) {
            Some(OmxError::BadPortIndex)
        } else {
            None
        }
    }

    fn value(&self, key: ParamKey, config: bool) -> Param
        requires { get_refusal self.now key config ≡ None }
        ensures { result ≡ value_of self.now key }
    {
        let port = key.port as usize;
        if key.index == 1 {
            Param::Port(self.ports[port].definition)
        } else if key.index == 2 {
            Param::Supplier(self.ports[port].supplier)
        } else if key.index == 3 {
            Param::Priority(self.priority)
        } else if key.index == 4 {
            Param::Gain(self.gain)
        } else {
            Param::Weight(self.weights[port])
        }
    }

    /// The value of a parameter, or of a config.
    pub fn get(&self, key: ParamKey, config: bool) -> Result<Param, OmxError>
        ensures { result ≡ got self.now key config }
    {
        match self.get_refusal(key, config) {
            Some(error) => Err(error),
            None => Ok(self.value(key, config)),
        }
    }

    fn is_supported(&self, key: ParamKey, config: bool, value: Param, free: bool) -> bool
        requires key { get_refusal self.now key config ≡ None }
        requires value { is_value_of key.index value ≡ true }
        ensures { result ≡ is_supported self.now key.port free value }
    {
        let Param::Port(definition) = value else {
            return true;
        };
        kinds::is_port_format(
            self.kind,
            kinds::is_input(self.kind, key.port),
            definition.format,
        ) && free
    }

    fn value_refusal(
        &self,
        key: ParamKey,
        config: bool,
        value: Param,
        free: bool,
    ) -> Option<OmxError>
        requires { get_refusal self.now key config ≡ None }
        ensures { result ≡ first_of_these (value_refusals self.now key value free) }
    {
        let input = kinds::is_input(self.kind, key.port);
        if !limits::is_value_of(key.index, value) {
            Some(OmxError::BadParameter)
        } else if !limits::is_good_value(input, value) {
            Some(OmxError::BadParameter)
        } else if !self.is_supported(key, config, value, free) {
            Some(OmxError::UnsupportedSetting)
        } else {
            None
        }
    }

    /// Why `set` is refused, if it is. `free` says whether a port's format may become that of the value.
    pub fn set_refusal(
        &self,
        key: ParamKey,
        config: bool,
        value: Param,
        free: bool,
    ) -> Option<OmxError>
        ensures { result ≡ set_refusal self.now key config value free }
    {
        if let Some(error) = self.get_refusal(key, config) {
            return Some(error);
        }
        self.value_refusal(key, config, value, free)
    }

    /// Sets what a client sets of a port, whatever it was.
    pub fn set_setting(&mut self, port: u32, setting: PortSetting)
        requires { port < ports_in self.old.kind }
        ensures { self.new ≡ with_setting port setting self.old }
    {
        self.ports[port as usize] = setting;
    }

    fn set_weight(&mut self, input: u32, weight: u32)
        requires input { input < weights_in self.old.kind }
        requires small { weight ≤ 65535 }
        ensures { self.new ≡ record self.old { weights = slice_set self.old.weights input weight } }
    {
        self.weights[input as usize] = weight;
    }

    fn change(&mut self, key: ParamKey, config: bool, value: Param)
        requires key { get_refusal self.old key config ≡ None }
        requires value { is_value_of key.index value ≡ true }
        requires good { (input : Bool) × (is_good_value input value ≡ true) }
        ensures { self.new ≡ changed_by key.port value self.old }
    {
        match value {
            Param::Port(definition) => {
                let mut setting = self.setting(key.port);
                setting.definition = definition;
                self.set_setting(key.port, setting);
            }
            Param::Supplier(supplier) => {
                let mut setting = self.setting(key.port);
                setting.supplier = supplier;
                self.set_setting(key.port, setting);
            }
            Param::Priority(priority) => self.priority = priority,
            Param::Gain(gain) => self.gain = gain,
            Param::Weight(weight) => self.set_weight(key.port, weight),
        }
    }

    /// Sets the value of a parameter, or of a config. `free` says whether a port's format may become that of the value.
    pub fn set(
        &mut self,
        key: ParamKey,
        config: bool,
        value: Param,
        free: bool,
    ) -> Result<(), OmxError>
        ensures { MatchOption (set_refusal self.old key config value free) ((result ≡ Ok tt) × (self.new ≡ changed_by key.port value self.old)) (λ error. (result ≡ Err error) × (self.new ≡ self.old)) }
    {
        if let Some(error) = self.set_refusal(key, config, value, free) {
            return Err(error);
        }
        self.change(key, config, value);
        Ok(())
    }
}
