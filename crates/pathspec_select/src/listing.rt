//! Listings of paths: records that a separator ends.

mod contents;
mod copy;
mod entries;
mod names;
mod outline;
mod spans;

pub use contents::{Listing, ListingError, read};
pub use outline::Outline;
pub(crate) use outline::Piece;
