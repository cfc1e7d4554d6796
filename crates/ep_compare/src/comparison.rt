// What is asked of two states.

/// What is asked of the states that two plans leave.
#[derive(Clone, Copy)]
pub enum Comparison {
    /// Whether they are bisimilar.
    Same,
    /// A formula that tells them apart.
    Apart,
}
