// A law of the answers of `plan`. The function has an empty body, and its contract is the theorem.

ghost use Rattle.std.specs.Prelude.{◌⊎◌};
ghost use Rattle.ep_bounds.specs.declared.bounds.Bounds.{Bounds};
ghost use Rattle.ep_bounds.specs.declared.bounds.Mode.{Mode};
ghost use Rattle.ep_ground.specs.Task.{GroundTask};
ghost use Rattle.ep_search.specs.Allowed.{IsSpent, NoneWithin};
ghost use Rattle.ep_planning.specs.Planning.{Plans, TellsNone, TellsPlan};
ghost use Rattle.ep_reading.specs.Served.{Ending};

/// Where neither more states nor a wider one lie within the bound, a plan is told, or that there is none.
pub fn a_plan_is_told_or_none()
    ensures { (bounds : Bounds) (mode : Mode) (g : GroundTask) (outcome : Ending) → Plans bounds mode g outcome →
        (IsSpent g.problem bounds → ⊥) → TellsPlan bounds mode g outcome ⊎ (NoneWithin g.problem bounds × TellsNone bounds g outcome) }
{}
