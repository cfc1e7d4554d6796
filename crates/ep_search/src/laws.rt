//! A law of finished searches.

ghost use Rattle.std.specs.Prelude.{◌≡◌, [], None};
ghost use Rattle.ep_bounds.specs.Bounds.{IsBounds};
ghost use Rattle.ep_bounds.specs.declared.bounds.Bounds.{Bounds};
ghost use Rattle.ep_bounds.specs.declared.bounds.Measure.TheVariants.{Cost};
ghost use Rattle.ep_theory.specs.Closed.{Closed};
ghost use Rattle.ep_theory.specs.PlanningTask.{PlanningTask, IsPlanningTask};
ghost use Rattle.ep_search.specs.Progresses.{Keeps, CoversAll};
ghost use Rattle.ep_search.specs.Weighed.{weighed};
ghost use Rattle.ep_search.specs.declared.progress.Progress.{Progress};

/// Where plans are measured by costs, nothing waits and there is no plan, what is stored is a closed list.
pub fn what_is_stored_is_closed()
    ensures { (T : PlanningTask) (b : Bounds) (p : Progress) → IsPlanningTask T → IsBounds b → b.measure ≡ Cost →
        Keeps T b p → CoversAll T b p → p.frontier ≡ [] → p.best ≡ None → Closed T b.bound (weighed p.store.entries) }
{}
