// Books of version 2, books of either version, and the moves between the two. Version 1 alone is `book`.
#![tactic(auto)]

pub mod any;
pub mod moves;
pub mod second;
