//! What two ports must agree on before a tunnel joins them, and which of them makes its headers.
#![tactic(auto)]

ghost use Rattle.std.specs.Prelude.{◌≡◌, ◌↔◌, IsTrue};
ghost use Rattle.il_machine.specs.Ports.{is_supplier};
ghost use Rattle.il_machine.specs.Settings.{same_format};
ghost use Rattle.il_machine.specs.Tunnels.{agreed};

use il_machine::Port;
use omx_types::{Format, Supplier};

/// Which end makes the headers of a tunnel, by the preferences of its output and its input. The input's is asked first.
pub fn agree_supplier(output: Supplier, input: Supplier) -> Supplier
    ensures { result ≡ agreed output input }
{
    match (output, input) {
        (_, Supplier::Input) => Supplier::Input,
        (_, Supplier::Output) => Supplier::Output,
        (Supplier::Output, Supplier::Unspecified) => Supplier::Output,
        (_, Supplier::Unspecified) => Supplier::Input,
    }
}

/// Whether the ends of a tunnel have one format.
pub fn compatible(output: Format, input: Format) -> bool
    ensures same { result ≡ same_format output input }
    ensures exactly { IsTrue result ↔ (output ≡ input) }
{
    output == input
}

/// Whether the port makes the headers of its tunnel.
pub fn is_supplier(port: Port) -> bool
    ensures { result ≡ is_supplier port }
{
    let Some(link) = port.state.link else {
        return false;
    };
    if port.setting.definition.input {
        matches!(link.supplier, Supplier::Input)
    } else {
        matches!(link.supplier, Supplier::Output)
    }
}
