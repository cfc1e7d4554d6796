//! Truth of formulas at one world of a state and at all.
#![tactic(auto)]

mod common;
mod fit;
mod formula_table;
mod labels;
mod rows;
mod table_labels;
mod truths;

pub use common::label_common;
pub use fit::fits;
pub use formula_table::{FormulaTable, MOST_TREES};
pub use labels::{label, label_atom, label_knows};
pub use table_labels::label_all;
pub use truths::{holds, holds_all};
