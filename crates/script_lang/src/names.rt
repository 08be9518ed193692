//! The component and header names that a trace's lines introduced: looked up, and added.

ghost use Rattle.std.specs.Prelude.{◌≡◌, [], OnOk};
ghost use Rattle.script_lang.specs.Known.{has_name, with_names};

use crate::{OutOfMemory, TraceForm};
use act_text::Name;
use std::alloc::Global;
use std::marker::Model;

/// The names that the lines of a trace introduced.
#[derive(Drop)]
pub struct Names {
    components: Vec<Name>,
    headers: Vec<Name>,
}

impl Model for Names {
    ghost use Rattle.script_lang.specs.Known.{Introduced};

    ghost Value = { Introduced };

    ghost view = { λ names. record { components = names.components.items; headers = names.headers.items } };
}

impl Names {
    /// No names yet.
    pub fn new(alloc: Global) -> Names
        ensures { result ≡ record { components = []; headers = [] } }
    {
        Names {
            components: Vec::new(alloc),
            headers: Vec::new(alloc),
        }
    }

    /// Whether a line before introduced a component of this name.
    pub fn has_component(&self, name: &Name) -> bool
        ensures { result ≡ has_name self.now.components name.now }
    {
        self.components
            .iter()
            .any(|component| component.as_bytes() == name.as_bytes())
    }

    /// Whether a line before introduced a header of this name.
    pub fn has_header(&self, name: &Name) -> bool
        ensures { result ≡ has_name self.now.headers name.now }
    {
        self.headers
            .iter()
            .any(|header| header.as_bytes() == name.as_bytes())
    }

    /// Adds the name that a line introduces.
    pub fn add(&mut self, form: &TraceForm) -> Result<(), OutOfMemory>
        ensures { OnOk result (self.new ≡ with_names self.old form.now) }
    {
        match form {
            TraceForm::Get { component, kind: _ } => self.components.push(*component)?,
            TraceForm::Alloc { header, port: _ } => self.headers.push(*header)?,
            TraceForm::UseBuf {
                header,
                port: _,
                length: _,
            } => self.headers.push(*header)?,
            _ => {}
        }
        Ok(())
    }
}
