//! Parameters and configs (OpenMAX IL 1.1.2, `OMX_GetParameter`, `OMX_GetConfig`, `OMX_SetParameter`, `OMX_SetConfig`).

ghost use Rattle.std.specs.Prelude.{◌≡◌, true, false, OnErr};
ghost use Rattle.il_machine.specs.Look.{look};
ghost use Rattle.il_machine.specs.Parameters.{SetParameter, SetConfig, parameter_answer};
ghost use Rattle.il_machine.specs.Whole.{Always, Steps};
ghost use Rattle.graph_core.specs.Entries.{look_of};
ghost use Rattle.il_graph.specs.Shown.{kept, KeepsAllFiles};
ghost use Rattle.graph_core.specs.Clients.{KeepsAllClients};
ghost use Rattle.il_graph.specs.HandedIn.{KeepsHandedIn};

use crate::graph::Graph;
use note_queues::Client;
use omx_types::{Handle, OmxError, Param, ParamKey};
use outside_io::{Sink, Source};

impl<S: Source, K: Sink, C: Client> Graph<S, K, C> {
    /// A parameter of a component.
    pub fn get_parameter(&self, h: Handle, key: ParamKey) -> Result<Param, OmxError>
        ensures { Always (kept C.progress self.now) (λ w. result ≡ parameter_answer h key false (look w)) }
    {
        let Some(component) = self.core.find(h) else {
            return Err(OmxError::InvalidComponent);
        };
        component.get(key, false)
    }

    /// A config of a component.
    pub fn get_config(&self, h: Handle, key: ParamKey) -> Result<Param, OmxError>
        ensures { Always (kept C.progress self.now) (λ w. result ≡ parameter_answer h key true (look w)) }
    {
        let Some(component) = self.core.find(h) else {
            return Err(OmxError::InvalidComponent);
        };
        component.get(key, true)
    }

    /// Sets a parameter of a component.
    pub fn set_parameter(&mut self, h: Handle, key: ParamKey, value: Param) -> Result<(), OmxError>
        ensures step { Steps (kept C.progress self.old) (kept C.progress self.new) (λ w v. SetParameter w h key value result v) }
        ensures held { KeepsHandedIn (look_of self.old.core) (look_of self.new.core) }
        ensures unchanged { OnErr result (self.new ≡ self.old) }
        ensures clients { KeepsAllClients self.old.core self.new.core }
        ensures files { KeepsAllFiles self.old self.new }
    {
        self.core.law_of_worlds();
        let Some(place) = self.core.place_of(h) else {
            return Err(OmxError::InvalidComponent);
        };
        if let Some(error) = self.core.set_parameter_refusal(place, key, value) {
            return Err(error);
        }
        self.core.set_value(place, key, false, value);
        self.core.close_out();
        Ok(())
    }

    /// Sets a config of a component.
    pub fn set_config(&mut self, h: Handle, key: ParamKey, value: Param) -> Result<(), OmxError>
        ensures step { Steps (kept C.progress self.old) (kept C.progress self.new) (λ w v. SetConfig w h key value result v) }
        ensures held { KeepsHandedIn (look_of self.old.core) (look_of self.new.core) }
        ensures unchanged { OnErr result (self.new ≡ self.old) }
        ensures clients { KeepsAllClients self.old.core self.new.core }
        ensures files { KeepsAllFiles self.old self.new }
    {
        self.core.law_of_worlds();
        let Some(place) = self.core.place_of(h) else {
            return Err(OmxError::InvalidComponent);
        };
        if let Some(error) = self.core.set_config_refusal(place, key, value) {
            return Err(error);
        }
        self.core.set_value(place, key, true, value);
        self.core.close_out();
        Ok(())
    }
}
