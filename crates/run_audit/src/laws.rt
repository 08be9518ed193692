//! That no text is without a verdict, stated on a function that does nothing.

ghost use Rattle.std.specs.Prelude.{ℕ, List};
ghost use Rattle.outside_io.specs.Files.{Outside};
ghost use Rattle.il_machine.specs.World.{World};
ghost use Rattle.play_forms.specs.Plans.{PlanValue};
ghost use Rattle.audit_forms.specs.Audited.{Verdict};
ghost use Rattle.audit_forms.specs.Whole.{IsVerdictFrom};

/// From whichever world its play begins, no text is without a verdict: its lines pass each test or stop at one, and its end decides.
pub fn law_of_every_text()
    ensures { (outside : Outside) (plan : PlanValue) (opening : World) (text : List ℕ)
        → ((verdict : Verdict) → IsVerdictFrom outside plan opening text verdict → ⊥) → ⊥ }
{}
