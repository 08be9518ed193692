//! A file comes to a component: what keeps it off, and that it is there.

ghost use Rattle.std.specs.Prelude.{◌≡◌, ℕ, List, Option, Some};
ghost use Rattle.il_machine.specs.Files.{is_for_kind, is_wrong_format, is_bad_file, file_port_format, attach_refusal};
ghost use Rattle.il_component.specs.Entries.{component_of, KeepsNotices};
ghost use Rattle.il_component.specs.Files.{offered};

use crate::component::Component;
use omx_types::{Format, Kind, OmxError};
use param_store::{has_more_bytes, is_same_format, is_too_large, is_within_limits};
use part_api::Attached;

/// Whether a component of the kind may have the file: a source reads one, a sink writes one.
fn is_for_kind(kind: Kind, file: Attached) -> bool
    ensures { (there : ℕ) (known : Option (List ℕ)) → result ≡ is_for_kind kind (offered file there known) }
{
    match file {
        Attached::From {
            format: _,
            frames: _,
        } => matches!(kind, Kind::Source | Kind::Late),
        Attached::To { frames: _ } => matches!(kind, Kind::Sink),
    }
}

/// Whether the format of a file keeps a source with this format at its port from reading it.
fn is_wrong_format(kind: Kind, port: Format, format: Format) -> bool
    ensures { result ≡ is_wrong_format kind port format }
{
    match kind {
        Kind::Late => matches!(format, Format::Auto) || !is_within_limits(format),
        _ => !is_same_format(format, port),
    }
}

/// Whether the file's format, its frames or its bytes keep it off. So many bytes are there.
fn is_bad_file(kind: Kind, port: Format, file: Attached, there: u64) -> bool
    ensures { (known : Option (List ℕ)) → result ≡ is_bad_file kind port (offered file there known) }
{
    match file {
        Attached::From { format, frames } => {
            is_wrong_format(kind, port, format)
                || is_too_large(frames, format)
                || has_more_bytes(frames, format, there)
        }
        Attached::To { frames } => is_too_large(frames, port),
    }
}

impl<C> Component<C> {
    /// The format of the port with the file, which is the first.
    fn file_port_format(&self) -> Format
        ensures { result ≡ file_port_format (component_of self.now) }
    {
        self.params.setting(0).definition.format
    }

    /// Why the file doesn't come to the component, which has so many bytes from its place to its size.
    pub fn attach_refusal(&self, file: Attached, there: u64) -> Option<OmxError>
        ensures { (known : Option (List ℕ)) → result ≡ attach_refusal (component_of self.now) (offered file there known) }
    {
        let kind = self.params.kind();
        if self.is_invalid() {
            Some(OmxError::InvalidState)
        } else if !is_for_kind(kind, file)
            || self.file.is_some()
            || is_bad_file(kind, self.file_port_format(), file, there)
        {
            Some(OmxError::BadParameter)
        } else if !self.is_settable() {
            Some(OmxError::IncorrectStateOperation)
        } else {
            None
        }
    }

    /// The file is there.
    pub fn attach(&mut self, file: Attached)
        ensures component { component_of self.new ≡ record (component_of self.old) { file = Some file } }
        ensures kept { KeepsNotices self.old self.new }
    {
        self.file = Some(file);
    }
}
