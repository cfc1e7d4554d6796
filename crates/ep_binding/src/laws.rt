// What the bindings are, in other words.

ghost use Rattle.std.specs.Prelude.{◌≡◌, ℕ, ◌<◌, ◌↔◌, true, List, length, All, AllPairs, Contains};
ghost use Rattle.ep_binding.specs.Bindings.{bindings, binding_count, distinct_bindings, all_different, IsApart, IsBinding, Precedes};

/// The bindings are the lists as long as the parameters with an object of each, and the distinct ones are those of
/// them in which no object stands twice.
pub fn bindings_are_all()
    ensures all { (cs : List (List ℕ)) (b : List ℕ) → Contains (bindings cs) b ↔ IsBinding cs b }
    ensures distinct { (cs : List (List ℕ)) (b : List ℕ) →
        Contains (distinct_bindings cs) b ↔ (IsBinding cs b × IsApart b) }
{}

/// Where the objects of each parameter differ, so do the bindings.
pub fn bindings_differ()
    ensures all { (cs : List (List ℕ)) → All IsApart cs → IsApart (bindings cs) }
    ensures distinct { (cs : List (List ℕ)) → All IsApart cs → IsApart (distinct_bindings cs) }
{}

/// Where the objects of each parameter rise, the bindings are in lexicographic order.
pub fn bindings_are_in_order()
    ensures all { (cs : List (List ℕ)) → All (λ c. AllPairs (λ o p. o < p) c) cs →
        AllPairs Precedes (bindings cs) }
    ensures distinct { (cs : List (List ℕ)) → All (λ c. AllPairs (λ o p. o < p) c) cs →
        AllPairs Precedes (distinct_bindings cs) }
{}

/// There are as many bindings as the product of the numbers of objects.
pub fn bindings_are_counted()
    ensures { (cs : List (List ℕ)) → length (bindings cs) ≡ binding_count cs }
{}
