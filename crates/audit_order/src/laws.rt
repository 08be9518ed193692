//! What must hold of the order, stated on functions that do nothing.

ghost use Rattle.std.specs.Prelude.{◌≡◌, ◌↔◌, [], ℕ, List};
ghost use Rattle.il_machine.specs.declared.answer.Progress.{Progress};
ghost use Rattle.act_text.specs.declared.act.TextAct.{TextAct};
ghost use Rattle.play_forms.specs.Plans.{IsValid, PlanValue};
ghost use Rattle.play_log.specs.Scenes.{HaveOwnNames};
ghost use Rattle.audit_order.specs.Steps.{Admits, IsComplete, OrderValue, nothing_asked};
ghost use Rattle.audit_order.specs.Wanted.{AdmitsAll, AreInTime, AreLateSources, Asking, Wanted, wanted};

/// The acts that an order admits one after the other, from the beginning on, are the first of what a client asks for, each in time; and
/// each such front is admitted. The order is complete exactly where nothing is left.
pub fn law_of_order()
    ensures in_time { (plan : PlanValue) (askings : List Asking) (order : OrderValue) → IsValid plan → AdmitsAll plan nothing_asked askings order
        → (sources : List ℕ) × (rest : List Wanted) × AreLateSources plan sources × AreInTime (wanted plan sources) askings rest × (IsComplete plan order ↔ (rest ≡ [])) }
    ensures admitted { (plan : PlanValue) (sources : List ℕ) (askings : List Asking) (rest : List Wanted) → IsValid plan → AreLateSources plan sources
        → AreInTime (wanted plan sources) askings rest → (order : OrderValue) × AdmitsAll plan nothing_asked askings order × (IsComplete plan order ↔ (rest ≡ [])) }
{}

/// An act leads to one order, where no two components have one name.
pub fn law_of_one_order()
    ensures { (plan : PlanValue) (told : List Progress) (order : OrderValue) (act : TextAct) (next other : OrderValue) → HaveOwnNames plan.parts
        → Admits plan told order act next → Admits plan told order act other → other ≡ next }
{}
