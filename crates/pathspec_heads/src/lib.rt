//! Searches the heads, stems and paths of specs in byte order: which of them begin a path, and which lie below it.
#![tactic(auto)]

pub mod agreement;
mod groups;
pub mod places;
mod probe;
mod search;
mod sorted_texts;
mod stems;
pub mod tables;
