//! The names of calls, in their order: each that was asked for, and those that failed.

ghost use Rattle.std.specs.Prelude.{◌≡◌, ◌++◌, replicate, OnOk, OnErr, IfOk};
ghost use Rattle.outside_io.specs.Named.{kept_names, name_in, names};

use crate::OutOfMemory;
use std::alloc::Global;

/// So many calls of one name, before those that were made earlier.
#[derive(Drop)]
pub struct Named {
    pub name: String,
    pub times: u64,
    pub older: Option<Box<Named>>,
}

/// An element for calls of that name.
pub fn of_name(alloc: Global, name: &str) -> Result<Box<Named>, OutOfMemory>
    ensures { IfOk result (λ named. name_in named ≡ name.now) }
{
    let named = Named {
        name: String::from_str(alloc, name)?,
        times: 0,
        older: None,
    };
    Ok(Box::new(alloc, named)?)
}

/// Puts so many calls of the element's name before the others.
pub fn put(list: &mut Option<Box<Named>>, named: Box<Named>, times: u64)
    ensures { names list.new ≡ names list.old ++ replicate times (name_in named) }
{
    let mut named = named;
    named.times = times;
    named.older = list.take();
    *list = Some(named);
}

/// Keeps the name of a call behind the others.
pub fn keep(alloc: Global, kept: &mut Vec<String>, name: &str) -> Result<(), OutOfMemory>
    ensures added { OnOk result (kept_names kept.new ≡ kept_names kept.old ++ replicate 1 name.now) }
    ensures kept { OnErr result (kept_names kept.new ≡ kept_names kept.old) }
{
    let name = String::from_str(alloc, name)?;
    kept.push(name)?;
    Ok(())
}
