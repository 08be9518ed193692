//! What must hold of plans, their faults and their streams, stated on functions that do nothing.

ghost use Rattle.std.specs.Prelude.{◌≡◌, ℕ, List, [], ◌∷◌};
ghost use Rattle.play_forms.specs.Plain.{ArePlain, plain, sink_text};
ghost use Rattle.play_forms.specs.Joints.{joints_of};
ghost use Rattle.play_forms.specs.Plans.{IsFit, IsFitFault, IsFitted, IsPlanOf, IsSameFault, IsShapeFault, IsValid, PlanValue};
ghost use Rattle.play_forms.specs.declared.joint.Joint.{Joint};
ghost use Rattle.play_forms.specs.declared.plan_fault.PlanFault.{PlanFault};
ghost use Rattle.play_forms.specs.declared.plan_fault.PlanFault.TheVariants.{OutOfMemory};
ghost use Rattle.script_lang.specs.declared.play_line.LinkLine.{LinkLine};
ghost use Rattle.script_lang.specs.declared.play_line.PartLine.{PartLine};
ghost use Rattle.wav_form.specs.declared.heads.WavHead.{WavHead};
ghost use Rattle.play_forms.specs.Rows.{three_samples, three_samples_files, three_samples_text, mix, mix_files, mix_streams};

/// In a valid plan each link's stream is what its giver makes of the whole streams that it takes.
pub fn law_of_plain()
    ensures plain { (plan : PlanValue) (samples : List (List ℕ)) → IsValid plan → ArePlain plan samples (plain plan samples) }
{}

/// A script has one plan or, but for want of memory, one fault. With the heads of its files a valid plan is fitted in one way, and then it fits
/// or has one fault of fitting.
pub fn law_of_plans()
    ensures plan { (units : ℕ) (parts : List PartLine) (links : List LinkLine) (plan other : PlanValue)
        → IsPlanOf units parts links plan → IsPlanOf units parts links other → plan ≡ other }
    ensures planned { (units : ℕ) (parts : List PartLine) (links : List LinkLine) (plan : PlanValue) (fault : PlanFault)
        → IsPlanOf units parts links plan → IsShapeFault units parts (joints_of parts links) fault → fault ≡ OutOfMemory }
    ensures first { (units : ℕ) (parts : List PartLine) (joints : List Joint) (fault other : PlanFault)
        → IsShapeFault units parts joints fault → IsShapeFault units parts joints other → IsSameFault fault other }
    ensures fitted { (plan : PlanValue) (heads : List WavHead) (one other : PlanValue)
        → IsValid plan → IsFitted plan heads one → IsFitted plan heads other → one ≡ other }
    ensures fit { (plan : PlanValue) (fault : PlanFault) → IsFit plan → IsFitFault plan fault → ⊥ }
    ensures misfit { (plan : PlanValue) (fault other : PlanFault) → IsValid plan → IsFitFault plan fault → IsFitFault plan other → fault ≡ other }
{}

/// Two plays worked out by hand.
pub fn law_of_rows()
    ensures three_samples { sink_text three_samples three_samples_files 1 ≡ three_samples_text }
    ensures mix { plain mix mix_files ≡ mix_streams }
{}
