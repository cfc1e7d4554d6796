//! What the texts of plans are read as.

ghost use Rattle.std.specs.Prelude.{◌≡◌, ◌≢◌, ℕ, ◌<◌, ◌≤◌, List, All, AllPairs, length};
ghost use Rattle.ep_bounds.specs.declared.bounds.Measure.{Measure};
ghost use Rattle.ep_bounds.specs.declared.bounds.TheConstants.{MOST_BOUND};
ghost use Rattle.ep_lex.specs.declared.limits.TheConstants.{MOST_BYTES};
ghost use Rattle.ep_logic.specs.declared.ids.ActionId.{ActionId};
ghost use Rattle.ep_ground.specs.Task.{GroundTask};
ghost use Rattle.ep_ground.specs.Grounding.{IsWhole};
ghost use Rattle.ep_plan_text.specs.PlanFiles.{IsFault, IsPlan};
ghost use Rattle.ep_plan_text.specs.PlanText.{plan_text};
ghost use Rattle.ep_plan_text.specs.declared.print.Mark.{Mark};
ghost use Rattle.ep_plan_text.specs.declared.read.PlanError.{PlanError};

/// The text of a plan of a ground task, of no more actions than a search may be bounded to, is a plan file of the task
/// with this plan, whatever the measure and the mark, and short enough to be read.
pub fn a_plan_is_read_again()
    ensures read { (g : GroundTask) (measure : Measure) (mark : Mark) (plan : List ActionId) → IsWhole g → length plan ≤ MOST_BOUND →
        All (λ a. a.n < length g.actions) plan →
        IsPlan g (plan_text g measure mark plan) plan }
    ensures short { (g : GroundTask) (measure : Measure) (mark : Mark) (plan : List ActionId) → IsWhole g → length plan ≤ MOST_BOUND →
        All (λ a. a.n < length g.actions) plan →
        length (plan_text g measure mark plan) ≤ MOST_BYTES }
{}

/// In a ground task whose action names differ, bytes are one plan at most, have one fault at most, and not both.
pub fn bytes_say_one_thing()
    ensures plan { (g : GroundTask) (bytes : List ℕ) (p q : List ActionId) → AllPairs (λ x y. x ≢ y) g.actions →
        IsPlan g bytes p → IsPlan g bytes q → p ≡ q }
    ensures fault { (g : GroundTask) (bytes : List ℕ) (e f : PlanError) → IsFault g bytes e → IsFault g bytes f → e ≡ f }
    ensures not_both { (g : GroundTask) (bytes : List ℕ) (p : List ActionId) (e : PlanError) →
        IsPlan g bytes p → IsFault g bytes e → ⊥ }
{}
