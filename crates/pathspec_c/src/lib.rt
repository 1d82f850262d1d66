//! The search of `gix_pathspec`, for C and what calls C.
//!
//! C keeps a [`PsSearch`], makes it of zero bytes, and hands its address to each call. Calls of [`searches`] put a search into
//! it and take it out, and that of [`files`] adds attribute files. Those of [`questions`] ask it about a path, and that of
//! [`many`] about many. Calls of [`texts`] copy texts to the caller's room, those of [`messages`] say a fault in words, and
//! [`defaults`] reads the environment's words. An empty handle is answered with the status 2, and is never followed. No call wants
//! more of what it is given than its types say.
#![tactic(auto)]

mod build;
pub mod defaults;
mod empty_rows;
pub mod files;
mod handle;
pub mod many;
pub mod messages;
pub mod questions;
mod raw_box;
mod reports;
mod searcher;
pub mod searches;
pub mod texts;

pub use handle::PsSearch;
pub use reports::{PsFault, PsLeftOut, PsMatch};
