// How far a search has come.

use ep_guide::Frontier;
use ep_problem::Plan;
use ep_store::Store;

// `expanded` has for each entry the weight at which it was last expanded, or the bound;
// `least` is the weight of the best plan, or one more than the bound.
#[derive(Drop)]
pub struct Progress {
    pub store: Store,
    pub frontier: Frontier,
    pub expanded: Vec<u32>,
    pub best: Option<Plan>,
    pub least: u32,
}
