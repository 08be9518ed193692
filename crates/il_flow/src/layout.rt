//! The layout of a part's data: its inputs, and the bytes of a frame at its ports.

ghost use Rattle.std.specs.Prelude.{◌≤◌};

/// How many inputs a part has, and the bytes of a frame at its ports.
#[derive(Clone, Copy)]
pub(crate) struct Layout {
    pub(crate) inputs: u32,
    pub(crate) input_frame: usize,
    pub(crate) output_frame: usize,
    ghost some_input: { 1 ≤ input_frame },
    ghost some_output: { 1 ≤ output_frame },
}
