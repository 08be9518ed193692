//! A part with one input: it keeps a step's samples in a register, and each output is an effect of them.

ghost use Rattle.std.specs.Prelude.{◌≡◌, ◌+◌, ◌*◌, ◌<◌, ◌≤◌, false, length, IfOk, None, []};
ghost use Rattle.audio_parts.specs.Kinds.{with_format};
ghost use Rattle.audio_parts.specs.Ready.{IsReady};
ghost use Rattle.audio_parts.specs.Registers.{front_of};
ghost use Rattle.part_forms.specs.Manners.{through};

use crate::OutOfMemory;
use crate::effect::Effect;
use crate::register::Register;
use omx_types::{Format, PartFault};
use part_api::Part;
use std::alloc::Global;

/// A part with one input, whose every output is an effect of it.
#[derive(Drop)]
pub struct OneInput<E> {
    pub(crate) effect: E,
    register: Register,
    /// The frames of the step, and their samples.
    frames: u32,
    count: usize,
    ghost few: { count ≤ 4096 },
}

impl<E: Effect> OneInput<E> {
    pub(crate) fn new(alloc: Global, effect: E) -> Result<OneInput<E>, OutOfMemory>
        ensures { IfOk result (λ part. part.effect ≡ effect) }
    {
        Ok(OneInput {
            effect,
            register: Register::new(alloc)?,
            frames: 0,
            count: 0,
        })
    }

    /// The bytes of a frame of its input.
    pub(crate) fn input_frame(&self) -> usize
        ensures { result ≡ (E.manner self.now.effect).channels * (E.manner self.now.effect).input_width }
    {
        self.effect.channels() as usize * self.effect.input_width()
    }

    /// The bytes of a frame of an output.
    pub(crate) fn output_frame(&self) -> usize
        ensures { result ≡ (E.manner self.now.effect).channels * (E.manner self.now.effect).output_width }
    {
        self.effect.channels() as usize * self.effect.output_width()
    }

    /// Sets the format of a port.
    pub(crate) fn set_format(&mut self, port: u32, format: Format)
        requires { port < length (E.terms self.old.effect).inputs + length (E.terms self.old.effect).outputs }
        ensures { E.terms self.new.effect ≡ with_format (E.terms self.old.effect) port format }
    {
        self.effect.set_format(port, format);
    }
}

impl<E: Effect> Part for OneInput<E> {
    ghost shape = { λ part. through (E.manner part.effect) };

    ghost sizes = { λ part. record { frames = part.frames; input = part.count * (E.manner part.effect).input_width; output = part.count * (E.manner part.effect).output_width } };

    ghost carries = { λ part incoming. front_of part.register.silent (part.count * (E.manner part.effect).input_width) part.register.bytes.items ≡ incoming.input 0 };

    ghost terms = { λ part. E.terms part.effect };

    ghost failed = { λ part. false };

    ghost is_ready = { λ part. IsReady (E.terms part.effect) false };

    ghost can_take = { λ part input. input < 1 };

    ghost can_put = { λ part output. output < (E.manner part.effect).outputs };

    ghost can_step = { λ part. Unit {0} };

    ghost rest = { λ part. None };

    ghost left = { λ part. None };

    ghost kept = { λ part. None };

    ghost writing = { λ part. None };

    ghost writes = { λ part incoming. [] };

    ghost has_cause = { λ old new fault. ⊥ };

    // It has no file.
    ghost keeps = { λ old new. Unit {0} };

    ghost shows = { λ old new fault. ⊥ };

    fn begin(&mut self, frames: u32) {
        self.frames = frames;
        self.count = (frames * self.effect.channels()) as usize;
        self.register.begin();
    }

    fn take(&mut self, _input: u32, piece: &[u8]) {
        let length = self.count * self.effect.input_width();
        self.register.set(piece, length);
    }

    fn step(&mut self) -> Option<PartFault> {
        None
    }

    fn put(&mut self, _output: u32, piece: &mut [u8]) {
        let length = self.count * self.effect.input_width();
        self.register.settle(length);
        self.effect
            .apply(self.count, &self.register.bytes[..length], piece);
    }

    fn joins(&self) {
        self.effect.joins();
    }
}
