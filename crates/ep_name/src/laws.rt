// What printed names tell.

ghost use Rattle.std.specs.Prelude.{◌≡◌, ◌≢◌, ℕ, ◌<◌, List, All, AllPairs, length, map};
ghost use Rattle.ep_name.specs.Names.{printed, printed_at, IsPlain};

/// Printed names of names that hold neither `(` nor `)` nor `,` are equal only where the declared names and the
/// objects' names are.
pub fn printed_names_differ()
    ensures { (name other : List ℕ) (os ps : List (List ℕ)) →
        IsPlain name → IsPlain other → All IsPlain os → All IsPlain ps →
        printed name os ≡ printed other ps → (name ≡ other) × (os ≡ ps) }
{}

/// Where the names of objects differ and are plain, one declared name with different objects has different printed
/// names.
pub fn printed_objects_differ()
    ensures { (name : List ℕ) (names bs : List (List ℕ)) →
        IsPlain name → All IsPlain names → AllPairs (λ x y. x ≢ y) names →
        All (λ b. All (λ o. o < length names) b) bs → AllPairs (λ a b. a ≢ b) bs →
        AllPairs (λ x y. x ≢ y) (map (printed_at name names) bs) }
{}
