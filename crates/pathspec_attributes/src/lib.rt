//! Attribute files (gitattributes), read as git reads them, as a look-up of attributes.
#![tactic(auto)]

mod asking;
mod assignments;
mod attribute_files;
mod deciding;
mod file;
mod lines;
mod marks;
mod paths;
mod place;
mod quoting;
mod reading;
mod reasons;
mod room;
mod rule;
mod sayings;

pub use attribute_files::{AttributeFiles, BorrowedFiles};
pub use place::{Place, RuleAt};
pub use quoting::unquote;
pub use reasons::{LeftOut, Reason};
pub use room::Room;
