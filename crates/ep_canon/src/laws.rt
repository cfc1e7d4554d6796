// A law of canonical bytes.

ghost use Rattle.std.specs.Prelude.{◌≡◌, ◌↔◌};
ghost use Rattle.ep_theory.specs.Kripke.{Kripke};
ghost use Rattle.ep_theory.specs.Bisimulation.{Bisimilar};
ghost use Rattle.ep_theory.specs.Canonical.{Contracts};
ghost use Rattle.ep_bytes.specs.Bytes.{bytes_of};

/// The contractions of states have equal bytes exactly if the states are bisimilar.
pub fn bytes_of_contractions_decide()
    ensures { (S R C D : Kripke) → Contracts S C → Contracts R D → (bytes_of C ≡ bytes_of D) ↔ Bisimilar S R }
{}
