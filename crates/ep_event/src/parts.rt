use ep_logic::{AgentId, AtomId, EventId, Formula, List};

/// An assignment: the atom gets the truth of the formula at the old world.
#[derive(Debug, Drop)]
pub struct Assign {
    pub atom: AtomId,
    pub value: Formula,
}

/// An event: where `pre` is true it may happen, and it makes these assignments. An atom without one keeps its value.
#[derive(Debug, Drop)]
pub struct EventParts {
    pub pre: Formula,
    pub sets: List<Assign>,
}

/// That an agent takes the second event to be possible where the first happens.
#[derive(Clone, Copy, Debug, PartialEq, Eq)]
pub struct EventLink {
    pub agent: AgentId,
    pub from: EventId,
    pub to: EventId,
}

/// What an action is built from. Events are numbered by their place. Repeats of a link or of a designated event count
/// once.
#[derive(Debug, Drop)]
pub struct ActionParts {
    /// The number of agents, at most 8.
    pub agents: u32,
    pub events: List<EventParts>,
    pub links: List<EventLink>,
    pub designated: List<EventId>,
}
