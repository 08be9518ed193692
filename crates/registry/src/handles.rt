//! The registry: handles are given to values, resolved, set and removed, and why none is given.

ghost use Rattle.std.specs.Prelude.{◌≡◌, ◌+◌, Some, None, Ok, Err, IsOkAnd, IfOk, IfErr, OnErr, OnOk, MatchOption, true, false};
ghost use Rattle.registry.specs.declared.handles.Refuse.TheVariants.{Full};
ghost use Rattle.registry.specs.Handles.{resolved, live, is_full, AllGiven, Gives, Removes, Sets, no_handles};

use crate::entry::Entry;
use omx_types::{Handle, OmxError};
use slab::Slab;
use std::alloc::Global;
use std::marker::Model;

/// Why no handle was given.
#[derive(Clone, Copy)]
pub enum Refuse {
    Full,
    OutOfMemory,
}

/// The values of live handles. A handle that was removed never resolves again.
#[derive(Drop)]
pub struct Registry<T> {
    slots: Slab<Entry<T>>,
    given: u64,
}

impl<T> Model for Registry<T> {
    ghost use Rattle.registry.specs.Handles.{Handles, handles_code, AllGiven};

    ghost Value = { Handles T };

    ghost coded = { handles_code T.code };

    ghost view = { λ r. record { slots = r.slots.slots; given = r.given } };

    ghost invariant = { λ r. AllGiven (record { slots = r.slots.slots; given = r.given }) };
}

impl<T: Copy> Registry<T> {
    ghost use Rattle.std.specs.Borrow.{sem};
    ghost use Rattle.registry.specs.Lending.{lends_resolved};

    /// A registry with no handle, which takes no memory.
    pub fn new(alloc: Global) -> Registry<T>
        ensures { result ≡ no_handles }
    {
        Registry {
            slots: Slab::new(alloc),
            given: 0,
        }
    }

    /// Whether no further handle can be given: 32 are live, or the last generation is reached.
    pub fn is_full(&self) -> bool
        ensures { result ≡ is_full self.now }
    {
        self.slots.len() >= 32 || self.given == u64::MAX
    }

    /// How many handles were given, which is the generation of the next.
    pub fn given(&self) -> u64
        ensures { result ≡ self.now.given }
    {
        self.given
    }

    /// Gives a handle to the value. Which vacant slot is taken is left open.
    pub fn insert(&mut self, value: T) -> Result<Handle, (Refuse, T)>
        ensures given { IfOk result (λ h. Gives self.old self.new h value) }
        ensures room { IfOk result (λ h. is_full self.old ≡ false) }
        ensures full { IfErr result (λ e. e.0 ≡ Full → is_full self.old ≡ true) }
        ensures full_first { is_full self.old ≡ true → result ≡ Err (Full, value) }
        ensures value_returned { IfErr result (λ e. e.1 ≡ value) }
        ensures unchanged { OnErr result (self.new ≡ self.old) }
        ensures generations { AllGiven self.new }
    {
        if self.is_full() {
            return Err((Refuse::Full, value));
        }
        let entry = Entry {
            generation: self.given,
            value,
        };
        match self.slots.insert(entry) {
            Ok(key) => {
                let handle = Handle {
                    slot: key as u64,
                    generation: self.given,
                };
                self.given += 1;
                Ok(handle)
            }
            Err(_) => Err((Refuse::OutOfMemory, value)),
        }
    }

    /// The value of the handle: its slot isn't vacant, and has the handle's generation.
    pub fn resolve(&self, h: Handle) -> Result<&T, OmxError>
        ensures { MatchOption (resolved self.now h) (result ≡ Err OmxError.InvalidComponent) (λ value. IsOkAnd result (λ r. r.now ≡ value)) }
    {
        match self.slots.get(h.slot as usize) {
            Some(entry) if entry.generation == h.generation => Ok(&entry.value),
            _ => Err(OmxError::InvalidComponent),
        }
    }

    /// A copy of the value of the handle, or None where the handle doesn't resolve.
    pub fn lookup(&self, h: Handle) -> Option<T>
        ensures { result ≡ resolved self.now h }
    {
        match self.slots.get(h.slot as usize) {
            Some(entry) if entry.generation == h.generation => Some(entry.value),
            _ => None,
        }
    }

    /// The value of the handle for writing.
    pub fn resolve_mut(&mut self, h: Handle) -> Result<&mut T, OmxError>
        ensures* writes_back { sem 𝓛 (lends_resolved T.row self.entry h result) }
        ensures value { MatchOption (resolved self.old h) (result ≡ Err OmxError.InvalidComponent) (λ value. IsOkAnd result (λ r. r.now ≡ value)) }
    {
        match self.slots.get_mut(h.slot as usize) {
            Some(entry) if entry.generation == h.generation => Ok(entry.value_mut()),
            _ => Err(OmxError::InvalidComponent),
        }
    }

    /// Gives the handle another value.
    pub fn set(&mut self, h: Handle, value: T) -> Result<(), OmxError>
        ensures found { MatchOption (resolved self.old h) (result ≡ Err OmxError.InvalidComponent) (λ before. result ≡ Ok tt) }
        ensures set { OnOk result (Sets self.old self.new h value) }
        ensures unchanged { OnErr result (self.new ≡ self.old) }
    {
        let place = self.resolve_mut(h)?;
        *place = value;
        Ok(())
    }

    /// Takes the handle back. It never resolves again.
    pub fn remove(&mut self, h: Handle) -> Result<T, OmxError>
        ensures value { MatchOption (resolved self.old h) (result ≡ Err OmxError.InvalidComponent) (λ value. result ≡ Ok value) }
        ensures removed { IfOk result (λ value. Removes self.old self.new h) }
        ensures unchanged { OnErr result (self.new ≡ self.old) }
        ensures generations { AllGiven self.new }
    {
        let value = *self.resolve(h)?;
        self.slots.try_remove(h.slot as usize);
        Ok(value)
    }
}
