//! The forms of a play's lines: a part with its name, and a link of two ports by a tunnel.

use crate::PartForm;
use act_text::{Name, PortName};

/// What a line of a play says, by its form.
#[derive(Drop)]
pub enum PlayForm {
    Part {
        name: Name,
        form: PartForm,
    },
    Link {
        output: PortName,
        input: PortName,
        count: u32,
        size: u32,
    },
}
