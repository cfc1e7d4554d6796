//! The reached part of a state, the part that is kept, and the classes of bisimilar worlds.
#![tactic(auto)]

mod backward;
mod blocks;
mod class_list;
mod columns;
mod images;
mod kept;
mod leaving;
mod marking;
mod numbering;
mod reach;
mod rounds;
mod signing;
mod split;
mod touching;
mod worklist;

pub use class_list::{ClassList, classes, classes_counted};
pub use images::image;
pub use kept::{keeps_designated, restrict};
pub use reach::reachable;
pub use signing::{Signature, sign};
