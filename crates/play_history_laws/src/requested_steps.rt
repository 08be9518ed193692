//! Lists of steps, as a log or a board gives them, as histories of the play of a plan, and back. Stated on functions that do nothing.

ghost use Rattle.std.specs.Prelude.{All, Bool, List, Some, [], false, length, slice_get, ◌++◌, ◌≡◌, ◌≤◌, ℕ};
ghost use Rattle.omx_types.specs.declared.handle.Handle.{Handle};
ghost use Rattle.omx_types.specs.declared.state.State.TheVariants.{Loaded};
ghost use Rattle.il_machine.specs.Acts.{Act, Reply};
ghost use Rattle.il_machine.specs.Run.{Run, Step};
ghost use Rattle.il_machine.specs.World.{Component, World};
ghost use Rattle.play_model.specs.Numbers.{to_loaded};
ghost use Rattle.play_build_laws.specs.Assembly.{Assembly};
ghost use Rattle.play_build_laws.specs.Stages.{IsStage, Joining};
ghost use Rattle.play_forms.specs.Plain.{sink_text};
ghost use Rattle.play_forms.specs.Plans.{PlanValue};
ghost use Rattle.play_plan_laws.specs.Assemblies.{IsReady, PlayFiles, assembly_of};
ghost use Rattle.play_plan_laws.specs.Endings.{IsPlayedOut};
ghost use Rattle.play_log.specs.Entries.{Entry, printed, steps_of};
ghost use Rattle.play_result_laws.specs.Asked.{AreAllAt, IsConducted, told_by, tuned};
ghost use Rattle.play_result_laws.specs.Files.{AreSamples, IsWriter};
ghost use Rattle.play_result_laws.specs.Worlds.{HasWritten};
ghost use Rattle.play_result_laws.specs.Texts.{HasWrittenFront};
ghost use Rattle.play_history_laws.specs.Following.{IsLoadedAt};
ghost use Rattle.play_history_laws.specs.Order.{Cursor};
ghost use Rattle.play_history_laws.specs.Faults.{NoneFailed};
ghost use Rattle.play_history_laws.specs.Askings.{IsPlanHistory};
ghost use Rattle.play_result_laws.specs.Passes.{own_steps};
ghost use Rattle.play_history_laws.specs.Passes.{AreUnrefused, HaveLines, RequestAlone};
ghost use Rattle.play_history_laws.specs.Refused.{IsAtPart, is_refused};
ghost use Rattle.play_history_laws.specs.Requests.{AreRequested, IsOrdered, is_request_act, requests};

/// A run from the assembled graph of a plan, in which what is requested is a front of all that is asked, in time, is a history of its play,
/// whoever made its acts, and whichever of them were refused or idle; where all was requested the last StateSet was begun. Steps that are
/// conducted are requested so, and so is each front of them. The other way round, what was asked in a history is such a front. Where
/// one conducts, and the others request nothing, what is requested is what that one requests.
pub fn law_of_requested_steps()
    ensures goes { (plan : PlanValue) (files : PlayFiles) (handles : List Handle) (world : World)
        → IsReady plan files → IsStage (assembly_of plan files) (Joining (length plan.joints)) handles world
        → (links : List ℕ) (left steps : List (Act × Reply)) → AreRequested (tuned plan files) handles links left steps → (after : World) → Run world steps after
        → (cursor : Cursor) × IsPlanHistory plan files handles world steps cursor after × (left ≡ [] → 1 ≤ length plan.parts → cursor.phase ≡ to_loaded) }
    ensures conducted { (assembly : Assembly) (handles : List Handle) (steps : List (Act × Reply)) → (conducted : IsConducted assembly handles steps)
        → AreRequested assembly handles conducted.links [] steps }
    ensures asks { (plan : PlanValue) (files : PlayFiles) (handles : List Handle) (world : World) (steps : List (Act × Reply)) (cursor : Cursor) (after : World)
        → IsPlanHistory plan files handles world steps cursor after → IsOrdered plan files handles steps cursor }
    ensures own { (own : ℕ → Bool) (entries : List Entry) → RequestAlone own entries → requests (steps_of entries) ≡ requests (own_steps own entries) }
    ensures fronts { (assembly : Assembly) (handles : List Handle) (links : List ℕ) (left front behind : List (Act × Reply))
        → AreRequested assembly handles links left (front ++ behind) → AreRequested assembly handles links (requests behind ++ left) front }
{}

/// A log leaves out the entries that changed nothing. What was told is the same by the others. Where all was requested and nothing of what
/// nobody need ask for was refused, the printed steps are conducted. The other way round, what the printed steps request the whole
/// history does, where each request has a line. And at a component of the plan, and at a port that it has, nothing of what nobody need ask for
/// is refused.
pub fn law_of_printed_steps()
    ensures told { (place : ℕ) (entries : List Entry) → told_by place (steps_of (printed entries)) ≡ told_by place (steps_of entries) }
    ensures conducted { (assembly : Assembly) (handles : List Handle) (links : List ℕ) (entries : List Entry) (world after : World)
        → AreRequested assembly handles links [] (steps_of entries) → Run world (steps_of entries) after → AreUnrefused entries
        → IsConducted assembly handles (steps_of (printed entries)) }
    ensures requested { (assembly : Assembly) (handles : List Handle) (links : List ℕ) (left : List (Act × Reply)) (entries : List Entry) → HaveLines entries
        → AreRequested assembly handles links left (steps_of (printed entries)) → AreRequested assembly handles links left (steps_of entries) }
    ensures unrefused { (plan : PlanValue) (files : PlayFiles) (handles : List Handle) (world : World) (steps : List (Act × Reply)) (cursor : Cursor) (middle : World)
        → IsPlanHistory plan files handles world steps cursor middle
        → (act : Act) (reply : Reply) (after : World) → IsAtPart plan handles act → is_request_act act ≡ false → Step middle act reply after → is_refused reply ≡ false }
{}

/// Behind such a run the file of each writer has taken a front of its text, and the whole where all was requested; then no step has failed,
/// also where there is no writer.
pub fn law_of_requested_files()
    ensures none_failed { (plan : PlanValue) (files : PlayFiles) → IsReady plan files
        → (handles : List Handle) (world : World) → IsStage (assembly_of plan files) (Joining (length plan.joints)) handles world
        → (links : List ℕ) (left steps : List (Act × Reply)) → AreRequested (tuned plan files) handles links left steps → (after : World) → Run world steps after
        → left ≡ [] → NoneFailed after }
    ensures whole { (plan : PlanValue) (files : PlayFiles) (samples : List (List ℕ)) → IsReady plan files → AreSamples plan files samples
        → (handles : List Handle) (world : World) → IsStage (assembly_of plan files) (Joining (length plan.joints)) handles world
        → (links : List ℕ) (left steps : List (Act × Reply)) → AreRequested (tuned plan files) handles links left steps → (after : World) → Run world steps after
        → left ≡ [] → (place : ℕ) (name : List ℕ) → IsWriter plan.parts place name → HasWritten after place (sink_text plan samples place) }
    ensures fronts { (plan : PlanValue) (files : PlayFiles) (samples : List (List ℕ)) → IsReady plan files → AreSamples plan files samples
        → (handles : List Handle) (world : World) → IsStage (assembly_of plan files) (Joining (length plan.joints)) handles world
        → (links : List ℕ) (left steps : List (Act × Reply)) → AreRequested (tuned plan files) handles links left steps → (after : World) → Run world steps after
        → (place : ℕ) (name : List ℕ) → IsWriter plan.parts place name → HasWrittenFront after place (sink_text plan samples place) }
{}

/// Where all was requested and the components rest at the end with every note given, each has told its client that it is Loaded. The other way
/// round, where each has told it last and no client object is out, the play was done whole.
pub fn law_of_requested_ends()
    ensures rests { (plan : PlanValue) (files : PlayFiles) (handles : List Handle) (world : World)
        → IsReady plan files → IsStage (assembly_of plan files) (Joining (length plan.joints)) handles world
        → (links : List ℕ) (steps : List (Act × Reply)) → AreRequested (tuned plan files) handles links [] steps → (after : World) → Run world steps after
        → ((place : ℕ) (component : Component) → slice_get after.components place ≡ Some component → IsLoadedAt component)
        → AreAllAt (tuned plan files) Loaded steps }
    ensures ended { (plan : PlanValue) (files : PlayFiles) (handles : List Handle) (world : World)
        → IsReady plan files → IsStage (assembly_of plan files) (Joining (length plan.joints)) handles world
        → (links : List ℕ) (steps : List (Act × Reply)) → AreRequested (tuned plan files) handles links [] steps → (after : World) → Run world steps after
        → AreAllAt (tuned plan files) Loaded steps → All (λ component. component.client_out ≡ false) after.components → IsPlayedOut plan after }
{}
