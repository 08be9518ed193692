//! Which formats the component's ports may get.

ghost use Rattle.std.specs.Prelude.{◌≡◌, ◌<◌, ◌||◌};
ghost use Rattle.il_machine.specs.Kinds.{ports_in};
ghost use Rattle.il_machine.specs.Settings.{same_format};
ghost use Rattle.il_machine.specs.Parts.{file_format};
ghost use Rattle.il_machine.specs.Parameters.{keeps_format, is_off_file, overflows, is_format_fixed, is_format_free};
ghost use Rattle.il_component.specs.Entries.{component_of};

use crate::component::Component;
use il_machine::Port;
use omx_types::{Format, Param, ParamKey, PortDefinition};
use param_store::{is_same_format, is_too_large};
use part_api::Attached;

/// The format of the file that a source reads: without one it stands for a file with no frames.
fn file_format(file: Option<Attached>) -> Format
    ensures { result ≡ file_format file }
{
    match file {
        Some(Attached::From { format, frames: _ }) => format,
        _ => Format::Pcm {
            rate: 8000,
            channels: 1,
        },
    }
}

/// The frames that are planned for a file that is written would have too many bytes.
fn overflows(file: Option<Attached>, format: Format) -> bool
    ensures { result ≡ overflows file format }
{
    match file {
        Some(Attached::To { frames }) => is_too_large(frames, format),
        _ => false,
    }
}

impl<C> Component<C> {
    /// The port has its file's format.
    pub(crate) fn has_file_format(&self, port: Port) -> bool
        ensures { result ≡ same_format port.setting.definition.format (file_format self.now.file) }
    {
        is_same_format(port.setting.definition.format, file_format(self.file))
    }

    /// The port is held, and the format isn't its file's.
    fn is_off_file(&self, port: Port, format: Format) -> bool
        ensures { result ≡ is_off_file (component_of self.now) port format }
    {
        port.state.held && !is_same_format(format, file_format(self.file))
    }

    /// The port's format is known and stays.
    fn keeps_format(&self, port: Port) -> bool
        ensures { result ≡ keeps_format (component_of self.now) port }
    {
        !port.state.held
            && !matches!(port.setting.definition.format, Format::Auto)
            && (self.file.is_some() || !self.is_settable())
    }

    /// The port may not get the definition, for its format.
    fn is_format_fixed(&self, port: Port, definition: PortDefinition) -> bool
        requires { port.key.port < ports_in self.now.settings.kind }
        ensures { result ≡ is_format_fixed (component_of self.now) port definition }
    {
        let format = definition.format;
        self.is_off_file(port, format)
            || (self.keeps_format(port) && !is_same_format(format, port.setting.definition.format))
            || (!self.is_settable() && !self.params.would_fit(port.key.port, definition))
            || overflows(self.file, format)
    }

    /// Whether the value may be set of the port, as far as its format goes.
    fn is_format_free(&self, index: u32, value: Param) -> bool
        ensures { result ≡ is_format_free (component_of self.now) index value }
    {
        // The proof learns from it what always holds of the file.
        let _file = &self.file;
        let Param::Port(definition) = value else {
            return true;
        };
        let Some(port) = self.port(index) else {
            return false;
        };
        !self.is_format_fixed(port, definition)
    }

    /// Whether the value may be set, as far as a port's format goes: a config has none.
    pub(crate) fn is_free(&self, key: ParamKey, config: bool, value: Param) -> bool
        ensures { result ≡ (config || is_format_free (component_of self.now) key.port value) }
    {
        config || self.is_format_free(key.port, value)
    }
}
