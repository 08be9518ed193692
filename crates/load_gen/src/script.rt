//! The text of the script that plays the made files, and the names of files in a folder.

ghost use Rattle.std.specs.Prelude.{◌≡◌, ◌++◌, string_bytes, IfOk, codes};
ghost use Rattle.load_gen.specs.Script.{in_folder, script};

use std::alloc::{AllocError, Global};

/// The name of a file in a folder.
pub(crate) fn name_in(alloc: Global, folder: &str, name: &str) -> Result<String, AllocError>
    ensures { IfOk result (λ text. string_bytes text ≡ in_folder folder.now name.now) }
{
    let mut text = String::from_str(alloc, folder)?;
    text.push_str("/")?;
    text.push_str(name)?;
    Ok(text)
}

/// The script over the made files of a folder.
pub(crate) fn script_of(alloc: Global, folder: &str) -> Result<String, AllocError>
    ensures { IfOk result (λ text. string_bytes text ≡ script folder.now) }
{
    let mut text = String::from_str(alloc, "omx 1 play\nsource a ")?;
    text.push_str(folder)?;
    text.push_str("/a.wav\nsource b ")?;
    text.push_str(folder)?;
    text.push_str("/b.wav\ngain g 2048\nmixer m 2 4096 4096\nalaw e\nsink s ")?;
    text.push_str(folder)?;
    text.push_str("/out.wav\nlink a.0 g.0 4 4096\nlink g.1 m.0 4 4096\n")?;
    text.push_str("link b.0 m.1 4 4096\nlink m.2 e.0 4 4096\nlink e.1 s.0 4 4096\n")?;
    Ok(text)
}
