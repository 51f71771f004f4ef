//! The image checker: is an image, whoever wrote it, right in every legal world?
#![tactic(auto)]

mod bytes;
mod files;
mod instructions;
mod laws;
mod loaded;
mod outline;
mod question;
mod references;
mod rewritten;
mod sections;
mod segments;
mod slots;
mod symbols;
mod threads;
mod verdict;

pub use laws::{worlds_are_outlined, yes_is_founded};
pub use outline::outline_of;
pub use verdict::{Doubt, Site, Verdict, verify_image};
