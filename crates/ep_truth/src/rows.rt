ghost use Rattle.std.specs.Prelude.{◌≡◌, ◌<◌, length, All};
ghost use Rattle.std.specs.List.{list_all};
ghost use Rattle.ep_logic.specs.Rows.{value_at};

use ep_logic::Bits;

/// Whether the row is true at each of these places.
pub fn is_true_at_all(places: &[u32], row: &Bits) -> bool
    requires { All (λ w. w < length row.now) places.now }
    ensures { result ≡ list_all (value_at row.now) places.now }
{
    for w in places {
        if !row.get(*w) {
            return false;
        }
    }
    true
}
