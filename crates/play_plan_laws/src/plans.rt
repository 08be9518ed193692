//! A plan as the cast of a play, and what the conductor of a play hears of its components. Stated on functions that do nothing; the
//! play stands on them.

ghost use Rattle.std.specs.Prelude.{◌≡◌, ℕ, Bool, List, slice_get, Some};
ghost use Rattle.wav_form.specs.declared.heads.WavHead.{WavHead};
ghost use Rattle.play_forms.specs.declared.flow.Flow.{Flow};
ghost use Rattle.play_forms.specs.Flows.{AreFlows, AreFrames};
ghost use Rattle.play_forms.specs.Plans.{IsFit, IsFitted, IsPlanOfScript, IsValid, PlanValue};
ghost use Rattle.script_lang.specs.PlayScripts.{IsPlayScript};
ghost use Rattle.script_lang.specs.declared.script.Script.{Script};
ghost use Rattle.play_world_laws.specs.Cast.{Cast, IsCast};
ghost use Rattle.play_plan_laws.specs.Casting.{IsCastOf, IsInLimits, cast_of};
ghost use Rattle.play_plan_laws.specs.Limits.{AreHeads, IsLawfulFlow, IsScripted};

/// A valid plan has a cast, whoever supplies the headers of its links. Where it fits the heads of its files, that is one of a play.
pub fn law_of_casts()
    ensures some { (plan : PlanValue) (by_output : ℕ → Bool) → IsValid plan → IsCastOf plan (cast_of by_output plan) }
    ensures cast { (plan : PlanValue) (heads : List WavHead) (cast : Cast) → IsValid plan
        → AreFlows plan.parts plan.joints heads plan.flows → AreFrames plan.parts plan.joints heads plan.flows plan.frames
        → IsFit plan → IsInLimits plan → IsCastOf plan cast → IsCast cast }
{}

/// A plan keeps the limits of the numbers in its script's lines.
pub fn law_of_scripts()
    ensures planned { (script log text : List ℕ) (read : Script) (plan : PlanValue)
        → IsPlayScript script log text read → IsPlanOfScript read plan → IsScripted plan }
    ensures fitted { (plan fitted : PlanValue) (heads : List WavHead) → IsScripted plan → IsFitted plan heads fitted → IsScripted fitted }
{}

/// The numbers of a valid plan are in their limits, where those of its script's lines are and the heads of its files are ones that are
/// read; so is what goes through its links.
pub fn law_of_limits()
    ensures limits { (plan : PlanValue) (heads : List WavHead) → IsValid plan → AreFlows plan.parts plan.joints heads plan.flows
        → IsFit plan → IsScripted plan → AreHeads plan heads → IsInLimits plan }
    ensures flows { (plan : PlanValue) (heads : List WavHead) (link : ℕ) (flow : Flow) → IsValid plan → AreFlows plan.parts plan.joints heads plan.flows
        → IsFit plan → IsScripted plan → AreHeads plan heads → slice_get plan.flows link ≡ Some flow → IsLawfulFlow flow }
{}
