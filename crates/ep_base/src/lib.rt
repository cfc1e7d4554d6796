//! Lists, texts, boxes and want of memory: what texts and states both stand on.
#![tactic(auto)]

pub mod boxed;
pub mod list;
pub mod memory;
pub mod text;
pub mod text_builder;

pub use boxed::Boxed;
pub use list::List;
pub use memory::OutOfMemory;
pub use text::Text;
pub use text_builder::TextBuilder;
