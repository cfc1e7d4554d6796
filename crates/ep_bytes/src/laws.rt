// A law of the bytes of states.

ghost use Rattle.std.specs.Prelude.{◌≡◌, ◌↔◌};
ghost use Rattle.ep_theory.specs.Kripke.{Kripke, IsState};
ghost use Rattle.ep_bytes.specs.Bytes.{bytes_of};

/// States have equal bytes exactly if they are equal.
pub fn bytes_decide()
    ensures { (S R : Kripke) → IsState S → IsState R → (bytes_of S ≡ bytes_of R) ↔ (S ≡ R) }
{}
