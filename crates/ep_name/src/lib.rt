//! Printed names, and tables of names.
#![tactic(auto)]

pub mod laws;
pub mod print;
pub mod table;

pub use print::print_name;
pub use table::NameTable;
