// What a search answers.

use ep_problem::Plan;

/// What a search answers under the measure of its bounds.
#[derive(Drop)]
pub enum Answer {
    /// A plan that reaches the goal, and no list of actions that measures less does.
    Least(Plan),
    /// A plan that reaches the goal. In mode `Prove` a bound on states or worlds was too small to prove more.
    Found(Plan),
    /// No plan within the bound reaches the goal.
    NoneTo,
    /// More states than may be stored lie within the bound.
    ManyStates,
    /// The plan leaves a state whose contraction has more worlds than it may have.
    Wide(Plan),
}
