// Laws of the answers. Every function here has an empty body, and its contract is the theorem.

ghost use Rattle.std.specs.Prelude.{◌≡◌, List};
ghost use Rattle.ep_logic.specs.declared.ids.ActionId.{ActionId};
ghost use Rattle.ep_theory.specs.Kripke.{Kripke};
ghost use Rattle.ep_ground.specs.Task.{GroundTask};
ghost use Rattle.ep_reading.specs.Served.{Ending};
ghost use Rattle.ep_question.specs.Questions.{ShowsContraction, Contractions};

/// The contraction of a state is shown by one text.
pub fn a_contraction_has_one_text()
    ensures { (g : GroundTask) (S : Kripke) (x y : Ending) → ShowsContraction g S x → ShowsContraction g S y → x ≡ y }
{}

/// `contract` has one answer for a task and a plan.
pub fn contract_has_one_answer()
    ensures { (g : GroundTask) (plan : List ActionId) (x y : Ending) → Contractions g plan x → Contractions g plan y →
        x ≡ y }
{}
