//! Laws of certificates. Every function here is a law: its contract is the theorem, and its body does nothing.

ghost use Rattle.std.specs.Prelude.{◌≡◌, ℕ, suc, List, [], ◌∷◌, ◌++◌, Option, codes};
ghost use Rattle.ep_theory.specs.Rising.{IsIn};
ghost use Rattle.ep_theory.specs.Kripke.{Kripke};
ghost use Rattle.ep_theory.specs.Truth.{Truth};
ghost use Rattle.ep_theory.specs.Bisimulation.{Bisimilar};
ghost use Rattle.ep_theory.specs.PlanningTask.{PlanningTask};
ghost use Rattle.ep_theory.specs.Closed.{Closed, HasNoPlan, MayStand};
ghost use Rattle.ep_theory.specs.Maps.{Maps};
ghost use Rattle.ep_audit.specs.NamedTasks.{NamedTask, IsNamedTask};
ghost use Rattle.ep_audit.specs.Certificates.{Takes, nothing_told, Certifies, IsWrongLine};
ghost use Rattle.ep_audit.specs.Lines.{IsLine};
ghost use Rattle.ep_audit.specs.Writing.{Wrote};
ghost use Rattle.ep_audit.specs.declared.progress.Progress.{Progress};
ghost use Rattle.ep_audit.specs.declared.progress.DueLine.TheVariants as due;

use ep_theory::plans::a_closed_list_excludes_plans;

/// A map between two states shows that they are bisimilar.
pub fn a_map_shows_bisimilarity()
    ensures { (S R : Kripke) (map : List (Option ℕ)) → Maps S R map → Bisimilar S R }
{}

/// The goal is false at some designated world of a state that may stand in a certificate.
pub fn a_listed_state_fails_the_goal()
    ensures { (T : PlanningTask) (bound : ℕ) (e : Kripke × ℕ) → MayStand T bound e →
        ((w : ℕ) × IsIn w e.0.designated × ¬ Truth e.0 w T.goal) }
{}

/// A certificate lists states that are closed for its bound.
pub fn a_certificate_lists_closed_states()
    ensures { (T : NamedTask) (text : List ℕ) (bound : ℕ) → Certifies T text bound →
        ((entries : List (Kripke × ℕ)) × Closed T.problem bound entries) }
{}

/// Where a text is a certificate for a bound, no plan within it reaches the goal by plain products.
pub fn a_certificate_excludes_plans()
    ensures { (T : NamedTask) (text : List ℕ) (bound : ℕ) → IsNamedTask T → Certifies T text bound →
        HasNoPlan T.problem bound }
{
    a_closed_list_excludes_plans();
}

/// A text is a certificate for one bound at most, or has one wrong line, and never both.
pub fn one_verdict()
    ensures bound { (T : NamedTask) (text : List ℕ) (b c : ℕ) → IsNamedTask T → Certifies T text b → Certifies T text c → b ≡ c }
    ensures line { (T : NamedTask) (text : List ℕ) (l m : ℕ) → IsNamedTask T → IsWrongLine T text l → IsWrongLine T text m → l ≡ m }
    ensures never_both { (T : NamedTask) (text : List ℕ) (b l : ℕ) → IsNamedTask T → Certifies T text b → ¬ IsWrongLine T text l }
{}

/// A certificate is written line by line: each line needs only what those before it tell.
pub fn lines_are_written_in_turn()
    ensures none { (T : NamedTask) → Wrote T [] 0 nothing_told }
    ensures more { (T : NamedTask) (text : List ℕ) (n : ℕ) (told next : Progress) (line : List ℕ) → Wrote T text n told →
        IsLine line → ((behind : List ℕ) → Takes T told line behind next) → Wrote T (text ++ (line ++ 10 ∷ [])) (suc n) next }
    ensures last { (T : NamedTask) (text : List ℕ) (n : ℕ) (told : Progress) → Wrote T text n told → told.due ≡ due.End →
        Certifies T (text ++ (codes "end" ++ 10 ∷ [])) told.bound }
{}
