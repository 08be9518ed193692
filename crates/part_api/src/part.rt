//! The trait of parts: what a part is and has of its file, the calls of one step, and the law that pieces join.

ghost use Rattle.std.specs.Prelude.{◌≡◌, ◌↔◌, ◌≢◌, ℕ, ◌-◌, ◌*◌, ◌<◌, ◌≤◌, Bool, true, false, List, length, Option, option_map, IfNone, IfSome, ◌++◌};
ghost use Rattle.std.specs.Io.KnownBytes.{append_known};
ghost use Rattle.omx_types.specs.declared.fault.PartFault.{PartFault as Fault};
ghost use Rattle.part_api.specs.Streams.{Incoming, Shape, Sizes, HasFrames, sizes_of, silence, with_input, joined};
ghost use Rattle.part_api.specs.Steps.{HasRead, TookFront};
ghost use Rattle.part_api.specs.Terms.{Terms, Writing, begun, written, name_of};

use omx_types::PartFault;

/// What a component does with frames. A part holds a register for the frames of one step, of at most
/// 4,096 samples, and no call takes memory.
pub trait Part {
    /// What it is, with its plain function.
    ghost shape: { Self → Shape };

    /// The frames of the step that was begun, and the bytes of each piece.
    ghost sizes: { Self → Sizes };

    /// The register is that of a step into which this came.
    ghost carries: { Self → Incoming → Type 0 };

    /// What its owner set, and what file came.
    ghost terms: { Self → Terms };

    /// A step of it answered a fault.
    ghost failed: { Self → Bool };

    /// Its formats and its file fit, and no earlier step of it answered a fault.
    ghost is_ready: { Self → Type 0 };

    /// At least where it has this input, which wasn't taken in this step.
    ghost can_take: { Self → ℕ → Type 0 };

    /// At least where it has this output, and `step` answered None in this step.
    ghost can_put: { Self → ℕ → Type 0 };

    /// At least where a step was begun, and `step` wasn't called in it.
    ghost can_step: { Self → Type 0 };

    /// What its file still gives, where that is told.
    ghost rest: { Self → Option (List ℕ) };

    /// The frames that its file still gives, where it is a source.
    ghost left: { Self → Option ℕ };

    /// What its file has taken, where that is told.
    ghost kept: { Self → Option (List ℕ) };

    /// How far the writing of its file has come.
    ghost writing: { Self → Option Writing };

    /// What its file takes in a step into which this came.
    ghost writes: { Self → Incoming → List ℕ };

    /// The fault may come in a step between these states.
    ghost has_cause: { Self → Self → Fault → Type 0 };

    /// The object of its file stays: what it has for its life is the same, its count of faults didn't fall, and where no step
    /// failed a source moved forward, and not behind its told end.
    ghost keeps: { Self → Self → Type 0 };

    /// The object of its file shows that a step of the part answered this fault, since a time when no step had failed.
    ghost shows: { Self → Self → Fault → Type 0 };

    /// Sets the register to zeros for a step of that many frames.
    fn begin(&mut self, frames: u32)
        requires few { frames * (shape self.old).channels ≤ 4096 }
        requires fits { is_ready self.old }
        requires enough { IfSome (left self.old) (λ there. frames ≤ there) }
        ensures shape { shape self.new ≡ shape self.old }
        ensures terms { terms self.new ≡ terms self.old }
        ensures fits { is_ready self.new }
        ensures unfailed { failed self.old ≡ false }
        ensures failed { failed self.new ≡ failed self.old }
        ensures sizes { sizes self.new ≡ sizes_of (shape self.old) frames }
        ensures silent { carries self.new (silence (sizes self.new)) }
        ensures inputs { (input : ℕ) → input < (shape self.old).inputs → can_take self.new input }
        ensures begun { can_step self.new }
        ensures rest { rest self.new ≡ rest self.old }
        ensures left { left self.new ≡ left self.old }
        ensures kept { kept self.new ≡ kept self.old }
        ensures writing { writing self.new ≡ begun frames (writing self.old) }
        ensures causes { (after : Self) (fault : Fault) → has_cause self.new after fault → has_cause self.old after fault }
        ensures object { keeps self.old self.new };

    /// Brings an input's frames into the register. An input that isn't taken gives zeros.
    fn take(&mut self, input: u32, piece: &[u8])
        requires open { can_take self.old input }
        requires whole { length piece.now ≡ (sizes self.old).input }
        ensures shape { shape self.new ≡ shape self.old }
        ensures terms { terms self.new ≡ terms self.old }
        ensures fits { is_ready self.new ↔ is_ready self.old }
        ensures failed { failed self.new ≡ failed self.old }
        ensures sizes { sizes self.new ≡ sizes self.old }
        ensures came { (incoming : Incoming) → carries self.old incoming → carries self.new (with_input input piece.now incoming) }
        ensures others { (other : ℕ) → other ≢ input → can_take self.old other → can_take self.new other }
        ensures begun { can_step self.old → can_step self.new }
        ensures rest { rest self.new ≡ rest self.old }
        ensures left { left self.new ≡ left self.old }
        ensures kept { kept self.new ≡ kept self.old }
        ensures writing { writing self.new ≡ writing self.old }
        ensures causes { (after : Self) (fault : Fault) → has_cause self.new after fault → has_cause self.old after fault }
        ensures object { keeps self.old self.new };

    /// Reads the file's frames into the register, or writes the register's frames to the file, where
    /// the part has a file. After a fault no step may begin, and this one is over.
    fn step(&mut self) -> Option<PartFault>
        requires begun { can_step self.old }
        ensures shape { shape self.new ≡ shape self.old }
        ensures terms { terms self.new ≡ terms self.old }
        ensures fits { IfNone result (is_ready self.new ↔ is_ready self.old) }
        ensures unready { IfSome result (λ fault. is_ready self.new → ⊥) }
        ensures failed { IfSome result (λ fault. failed self.new ≡ true) }
        ensures unfailed { IfNone result (failed self.new ≡ failed self.old) }
        ensures over { IfSome result (λ fault. can_step self.new → ⊥) }
        ensures sizes { sizes self.new ≡ sizes self.old }
        ensures read { IfNone result ((incoming : Incoming) → carries self.old incoming → HasRead (rest self.old) (rest self.new) (carries self.new) incoming) }
        ensures left { IfNone result (left self.new ≡ option_map (λ frames. frames - (sizes self.old).frames) (left self.old)) }
        ensures written { IfNone result ((incoming : Incoming) → carries self.old incoming → kept self.new ≡ append_known (kept self.old) (writes self.old incoming)) }
        ensures front { (incoming : Incoming) → carries self.old incoming → TookFront (kept self.old) (kept self.new) (writes self.old incoming) }
        ensures outputs { IfNone result ((output : ℕ) → output < (shape self.old).outputs → can_put self.new output) }
        ensures cause { IfSome result (has_cause self.old self.new) }
        ensures causes { IfNone result ((after : Self) (fault : Fault) → has_cause self.new after fault → has_cause self.old after fault) }
        ensures unread { IfSome result (λ fault. left self.new ≡ left self.old) }
        ensures writing { IfNone result (writing self.new ≡ written (writing self.old)) }
        ensures name { name_of (writing self.new) ≡ name_of (writing self.old) }
        ensures object { keeps self.old self.new }
        ensures shows { IfSome result (shows self.old self.new) };

    /// Writes an output's frames from the register.
    fn put(&mut self, output: u32, piece: &mut [u8])
        requires stepped { can_put self.old output }
        requires whole { length piece.old ≡ (sizes self.old).output }
        ensures shape { shape self.new ≡ shape self.old }
        ensures terms { terms self.new ≡ terms self.old }
        ensures fits { is_ready self.new ↔ is_ready self.old }
        ensures failed { failed self.new ≡ failed self.old }
        ensures sizes { sizes self.new ≡ sizes self.old }
        ensures given { (incoming : Incoming) → carries self.old incoming → piece.new ≡ (shape self.old).plain incoming output }
        ensures carried { (incoming : Incoming) → carries self.old incoming → carries self.new incoming }
        ensures outputs { (other : ℕ) → can_put self.old other → can_put self.new other }
        ensures rest { rest self.new ≡ rest self.old }
        ensures left { left self.new ≡ left self.old }
        ensures kept { kept self.new ≡ kept self.old }
        ensures writing { writing self.new ≡ writing self.old }
        ensures causes { (after : Self) (fault : Fault) → has_cause self.new after fault → has_cause self.old after fault }
        ensures object { keeps self.old self.new };

    /// The plain function of joined pieces is the joined output of the pieces. The call does nothing.
    fn joins(&self)
        ensures { (frames more : ℕ) (first second : Incoming) → HasFrames (shape self.now) frames first → HasFrames (shape self.now) more second
            → (output : ℕ) → (shape self.now).plain (joined first second) output ≡ (shape self.now).plain first output ++ (shape self.now).plain second output };
}
