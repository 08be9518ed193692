//! The part of a mixer: the samples of its inputs are weighted, summed, and clamped for its output.

ghost use Rattle.std.specs.Prelude.{◌≡◌, ℕ, ◌+◌, ◌*◌, ◌<◌, ◌≤◌, Bool, true, false, List, [], ◌∷◌, All, length, take, map, replicate, slice_set, nat_lt, if◌then◌else◌, vec_len, unsigned_abs, count_by, slice_index_or, IfOk, None, pos};
ghost use Rattle.std.specs.Simd.Lanes.{zip2};
ghost use Rattle.omx_types.specs.Formats.{channels_of};
ghost use Rattle.omx_types.specs.declared.kind.Kind.TheVariants as kinds;
ghost use Rattle.pcm_ops.specs.Samples.{samples, bytes, mixed, clamped, IsSum};
ghost use Rattle.part_forms.specs.Mixing.{mixing, Carries};
ghost use Rattle.audio_parts.specs.Ready.{IsReady};

use crate::OutOfMemory;
use omx_types::{Format, PartFault};
use part_api::Part;
use pcm_ops::{clamp_into, mix_into};
use std::alloc::Global;

/// The most samples of a step.
const STEP_SAMPLES: usize = 4096;

/// The weighted sum of its inputs, clamped.
#[derive(Drop)]
pub struct Mixer {
    /// The formats of its inputs and its output.
    inputs: Vec<Format>,
    output: Format,
    /// One for each input.
    weights: Vec<u32>,
    /// Which inputs were taken in this step.
    taken: Vec<bool>,
    sums: Vec<i32>,
    /// The frames of the step, and their samples.
    frames: u32,
    count: usize,
    ghost formats: { vec_len inputs ≡ vec_len weights },
    ghost flags: { vec_len taken ≡ vec_len weights },
    ghost some: { 1 ≤ vec_len weights },
    ghost not_many: { vec_len weights ≤ 8 },
    ghost small: { All (λ weight. weight ≤ 65535) weights.items },
    ghost sums_room: { vec_len sums ≡ 4096 },
    ghost few: { count ≤ 4096 },
    ghost bounded: { All (λ sum. unsigned_abs sum ≤ 524280 * count_by (λ is_taken. is_taken) taken.items) (take count sums.items) },
}

/// Adds the weighted samples of a piece to the sums of a step.
fn mix_front(sums: &mut [i32], piece: &[u8], weight: u32, count: usize)
    requires small { weight ≤ 65535 }
    requires piece { length piece.now ≡ count * 2 }
    requires sums { count ≤ length sums.old }
    requires room { All IsSum (take count sums.old) }
    ensures value { take count sums.new ≡ zip2 (mixed weight) (take count sums.old) (samples piece.now) }
    ensures grows { (b : ℕ) → All (λ s. unsigned_abs s ≤ b) (take count sums.old) → All (λ s. unsigned_abs s ≤ b + 524280) (take count sums.new) }
{
    mix_into(&mut sums[..count], piece, weight);
}

/// The bytes of the clamped sums of a step.
fn put_front(sums: &[i32], count: usize, piece: &mut [u8])
    requires sums { count ≤ length sums.now }
    requires piece { length piece.old ≡ count * 2 }
    ensures { piece.new ≡ bytes (map clamped (take count sums.now)) }
{
    clamp_into(&sums[..count], piece);
}

fn clear_sums(sums: &mut [i32], count: usize)
    requires { count ≤ length sums.old }
    ensures { take count sums.new ≡ replicate count (pos 0) }
{
    sums[..count].fill(0);
}

impl Mixer {
    /// A mixer with a weight for each input.
    pub(crate) fn new(
        alloc: Global,
        inputs: Vec<Format>,
        output: Format,
        weights: Vec<u32>,
    ) -> Result<Mixer, OutOfMemory>
        requires some { 1 ≤ vec_len weights }
        requires inputs { vec_len weights ≤ 8 }
        requires formats { vec_len inputs ≡ vec_len weights }
        requires small { All (λ weight. weight ≤ 65535) weights.items }
        ensures weights { IfOk result (λ mixer. mixer.weights.items ≡ weights.items) }
        ensures inputs { IfOk result (λ mixer. mixer.inputs.items ≡ inputs.items) }
        ensures output { IfOk result (λ mixer. mixer.output ≡ output) }
    {
        let taken = vec![in alloc; false; weights.len()]?;
        Ok(Mixer {
            inputs,
            output,
            weights,
            taken,
            sums: vec![in alloc; 0; STEP_SAMPLES]?,
            frames: 0,
            count: 0,
        })
    }

    pub(crate) fn inputs(&self) -> u32
        ensures { result ≡ length self.now.weights.items }
    {
        self.weights.len() as u32
    }

    /// The bytes of a frame of each port.
    pub(crate) fn frame(&self) -> usize
        ensures { result ≡ channels_of self.now.output * 2 }
    {
        self.output.channels() as usize * 2
    }

    /// Sets the format of a port.
    pub(crate) fn set_format(&mut self, port: u32, format: Format)
        requires { port < vec_len self.old.inputs + 1 }
        ensures inputs { self.new.inputs.items ≡ (if nat_lt port (length self.old.inputs.items) then slice_set self.old.inputs.items port format else self.old.inputs.items) }
        ensures output { self.new.output ≡ (if nat_lt port (length self.old.inputs.items) then self.old.output else format) }
        ensures weights { self.new.weights.items ≡ self.old.weights.items }
    {
        let at = port as usize;
        if at < self.inputs.len() {
            self.inputs[at] = format;
        } else {
            self.output = format;
        }
    }

    /// Sets the weight of an input.
    pub(crate) fn set_weight(&mut self, input: u32, weight: u32)
        requires input { input < vec_len self.old.weights }
        requires small { weight ≤ 65535 }
        ensures weights { self.new.weights.items ≡ slice_set self.old.weights.items input weight }
        ensures inputs { self.new.inputs.items ≡ self.old.inputs.items }
        ensures output { self.new.output ≡ self.old.output }
    {
        self.weights[input as usize] = weight;
    }
}

impl Part for Mixer {
    ghost shape = { λ mixer. mixing (channels_of mixer.output) mixer.weights.items };

    ghost sizes = { λ mixer. record { frames = mixer.frames; input = mixer.count * 2; output = mixer.count * 2 } };

    ghost carries = { λ mixer incoming. Carries mixer.weights.items mixer.taken.items mixer.count (take mixer.count mixer.sums.items) incoming };

    ghost terms = { λ mixer. record { kind = kinds.Mixer (vec_len mixer.weights); inputs = mixer.inputs.items; outputs = mixer.output ∷ []; factors = mixer.weights.items; file = None } };

    ghost failed = { λ mixer. false };

    ghost is_ready = { λ mixer. IsReady (record { kind = kinds.Mixer (vec_len mixer.weights); inputs = mixer.inputs.items; outputs = mixer.output ∷ []; factors = mixer.weights.items; file = None }) false };

    ghost can_take = { λ mixer input. (input < length mixer.weights.items) × (slice_index_or mixer.taken.items input true ≡ false) };

    ghost can_put = { λ mixer output. output < 1 };

    ghost can_step = { λ part. Unit {0} };

    ghost rest = { λ part. None };

    ghost left = { λ part. None };

    ghost kept = { λ mixer. None };

    ghost writing = { λ mixer. None };

    ghost writes = { λ mixer incoming. [] };

    ghost has_cause = { λ old new fault. ⊥ };

    // It has no file.
    ghost keeps = { λ old new. Unit {0} };

    ghost shows = { λ old new fault. ⊥ };

    fn begin(&mut self, frames: u32) {
        self.frames = frames;
        self.count = (frames * self.output.channels()) as usize;
        self.taken.fill(false);
        clear_sums(&mut self.sums, self.count);
    }

    fn take(&mut self, input: u32, piece: &[u8]) {
        let at = input as usize;
        self.taken[at] = true;
        mix_front(&mut self.sums, piece, self.weights[at], self.count);
    }

    fn step(&mut self) -> Option<PartFault> {
        None
    }

    fn put(&mut self, _output: u32, piece: &mut [u8]) {
        put_front(&self.sums, self.count, piece);
    }

    fn joins(&self) {}
}
