//! What parts build.

ghost use Rattle.std.specs.Prelude.{◌≡◌, None};
ghost use Rattle.ep_theory.specs.Events.{IsAction};
ghost use Rattle.ep_event.specs.Built.{IsMadeOf, built};
ghost use Rattle.ep_event.specs.Refusals.{refusal_of};
ghost use Rattle.ep_event.specs.declared.parts.ActionParts.{ActionParts};

/// Parts that have no refusal build an action of their events, their links and their designated events.
pub fn parts_are_built()
    ensures made { (p : ActionParts) → refusal_of p ≡ None → IsMadeOf p (built p) }
    ensures action { (p : ActionParts) → refusal_of p ≡ None → IsAction (built p) }
{}
