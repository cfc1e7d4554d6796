//! The language of tasks, formulas and plan files.

/// Marks the readers of this language: its trees stand in a crate below, and each is read as `Parse<TaskLanguage>` says.
pub struct TaskLanguage;
