//! Walks over directories, those of a disk among them, which open only those in which a search can select something.
#![tactic(auto)]

mod directories;
pub mod disk;
mod visitor;
mod walk;

pub use directories::Directories;
pub use visitor::Visitor;
pub use walk::{ListError, walk_selected};
