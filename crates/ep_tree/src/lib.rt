//! Trees of tasks, formulas and plan files, and the grammar that spells them.
#![tactic(auto)]

pub mod laws;
pub mod limits;
pub mod terminal;
pub mod tree;

pub use limits::MOST_NESTING;
pub use terminal::{Terminal, is_reserved_word};
pub use tree::{
    AtomTree, BodyTree, CallTree, EventTree, FluentTree, FormulaTree, GroupTree, InitTree,
    LinkTree, Name, ObjectTree, PairTree, PairsTree, ParamTree, PlanTree, SchemaTree, SeesTree,
    SetTree, TaskTree, TypeTree, WorldTree,
};
