// Laws of states and event models whose relations are equivalences.

ghost use Rattle.std.specs.Prelude.{◌≡◌, ◌↔◌, ℕ, ◌<◌, IsTrue, List, Some, length};
ghost use Rattle.std.specs.List.{AllByRecursion};
ghost use Rattle.ep_logic.specs.declared.formula.Node.{Node};
ghost use Rattle.ep_logic.specs.declared.formula.Node.TheVariants.{Knows};
ghost use Rattle.ep_logic.specs.declared.ids.ActionId.{ActionId};
ghost use Rattle.ep_logic.specs.declared.ids.AgentId.{AgentId};
ghost use Rattle.ep_theory.specs.Rising.{IsRising};
ghost use Rattle.ep_theory.specs.Kripke.{Kripke, IsState, pair_cmp};
ghost use Rattle.ep_theory.specs.Truth.{Truth};
ghost use Rattle.ep_theory.specs.Events.{EventModel};
ghost use Rattle.ep_theory.specs.Product.{product_of};
ghost use Rattle.ep_theory.specs.Equivalences.{AreClasses, IsEquivalence, IsS5, IsS5Action, is_equivalence};
ghost use Rattle.ep_theory.specs.PlanningTask.{PlanningTask, IsPlanningTask, IsS5Task};
ghost use Rattle.ep_theory.specs.Plans.{after};

/// The test decides whether pairs are an equivalence.
pub fn equivalences_are_tried()
    ensures { (n : ℕ) (pairs : List (ℕ × ℕ)) → IsTrue (is_equivalence n pairs) ↔ IsEquivalence n pairs }
{}

/// Pairs in rising order are an equivalence exactly if each number is among its successors, and each of these has the same.
pub fn equivalences_are_classes()
    ensures { (n : ℕ) (pairs : List (ℕ × ℕ)) → IsRising pair_cmp pairs → AllByRecursion (λ p. (p.0 < n) × (p.1 < n)) pairs →
        IsEquivalence n pairs ↔ AreClasses n pairs }
{}

/// The product keeps that all relations are equivalences.
pub fn product_of_equivalences()
    ensures { (S : Kripke) (A : EventModel) → IsState S → length A.links ≡ S.agents → IsS5 S → IsS5Action A →
        IsS5 (product_of S A) }
{}

/// What an agent knows is true where relations are equivalences.
pub fn knowledge_is_true()
    ensures { (S : Kripke) → IsState S → IsS5 S → (a : AgentId) (f : Node) (w : ℕ) → a.n < S.agents → w < S.worlds →
        Truth S w (Knows a f) → Truth S w f }
{}

/// What a plan of a task of equivalences leaves has equivalences too, and what an agent knows there is true.
pub fn s5_tasks_keep_knowledge_true()
    ensures s5 { (T : PlanningTask) → IsPlanningTask T → IsS5Task T → (p : List ActionId) (S : Kripke) →
        after T p ≡ Some S → IsS5 S }
    ensures truthful { (T : PlanningTask) → IsPlanningTask T → IsS5Task T → (p : List ActionId) (S : Kripke) →
        after T p ≡ Some S → (a : AgentId) (f : Node) (w : ℕ) → a.n < S.agents → w < S.worlds →
        Truth S w (Knows a f) → Truth S w f }
{}
