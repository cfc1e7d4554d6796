// Laws of the keys of states.

ghost use Rattle.std.specs.Prelude.{◌≡◌, ◌↔◌, ℕ, Bool, List};
ghost use Rattle.ep_theory.specs.Kripke.{Kripke, IsState};
ghost use Rattle.ep_kripke.specs.RowTables.{AreDistinct, Keeps};
ghost use Rattle.ep_kripke.specs.Interning.{IsKeyOf};

/// Two states have equal keys over one table exactly if they are equal, also where the table grew between the two.
pub fn keys_decide()
    ensures { (before after : List (List Bool)) (S R : Kripke) (k l : List ℕ) → IsState S → IsState R → Keeps before after →
        AreDistinct after → IsKeyOf before S k → IsKeyOf after R l → (k ≡ l) ↔ (S ≡ R) }
{}
