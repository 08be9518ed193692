//! Script lines of their own memory.

ghost use Rattle.std.specs.Prelude.{◌≡◌, IfOk};

use crate::OutOfMemory;
use script_lang::{FileName, PartForm, PartLine, Weights};
use std::alloc::Global;

fn file_copy(alloc: Global, file: &FileName) -> Result<FileName, OutOfMemory>
    ensures { IfOk result (λ copy. copy ≡ file.now) }
{
    FileName::of(alloc, file.as_str())
}

fn weights_copy(alloc: Global, weights: &Weights) -> Result<Weights, OutOfMemory>
    ensures { IfOk result (λ copy. copy ≡ weights.now) }
{
    let copy = Vec::from_slice(alloc, weights.as_slice())?;
    Ok(Weights::from_vec(copy))
}

fn form_copy(alloc: Global, form: &PartForm) -> Result<PartForm, OutOfMemory>
    ensures { IfOk result (λ copy. copy ≡ form.now) }
{
    Ok(match form {
        PartForm::Source(file) => PartForm::Source(file_copy(alloc, file)?),
        PartForm::Late(file) => PartForm::Late(file_copy(alloc, file)?),
        PartForm::Decoder => PartForm::Decoder,
        PartForm::Alaw => PartForm::Alaw,
        PartForm::Mulaw => PartForm::Mulaw,
        PartForm::Gain(gain) => PartForm::Gain(*gain),
        PartForm::Mixer(weights) => PartForm::Mixer(weights_copy(alloc, weights)?),
        PartForm::Splitter(outputs) => PartForm::Splitter(*outputs),
        PartForm::Sink(file) => PartForm::Sink(file_copy(alloc, file)?),
    })
}

/// The same components.
pub fn parts_copy(alloc: Global, parts: &[PartLine]) -> Result<Vec<PartLine>, OutOfMemory>
    ensures { IfOk result (λ copy. copy.items ≡ parts.now) }
{
    let mut copies = Vec::new(alloc);
    for part in parts {
        copies.push(PartLine {
            line: part.line,
            name: part.name,
            form: form_copy(alloc, &part.form)?,
        })?;
    }
    Ok(copies)
}
