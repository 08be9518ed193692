//! The format and the number of frames of what goes through a link.

use omx_types::Format;

/// What goes through a link: frames of one format.
#[derive(Clone, Copy)]
pub struct Flow {
    pub format: Format,
    pub frames: u64,
}
