// Laws of products.

ghost use Rattle.std.specs.Prelude.{◌≡◌};
ghost use Rattle.ep_theory.specs.Kripke.{Kripke};
ghost use Rattle.ep_theory.specs.Events.{EventModel};
ghost use Rattle.ep_theory.specs.Product.{product_of};
ghost use Rattle.ep_update.specs.Places.{precondition_labels, assignment_labels};

/// The products of two actions are equal where their links, their designated events, the labels of their
/// preconditions, and the atoms that they assign with the labels of the values are: a search may skip a product that
/// repeats one.
pub fn equal_labels_make_equal_products()
    ensures { (S : Kripke) (A B : EventModel) → A.links ≡ B.links → A.designated ≡ B.designated →
        precondition_labels S A ≡ precondition_labels S B → assignment_labels S A ≡ assignment_labels S B →
        product_of S A ≡ product_of S B }
{}
