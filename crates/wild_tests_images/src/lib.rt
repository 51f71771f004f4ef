//! Tests of images in memory, and of the memory after they are loaded: what no contract says, with words from the standards.
#![tactic(auto)]

#[cfg(test)]
mod changes;
#[cfg(test)]
mod linked_outputs;
#[cfg(test)]
mod loaded_images;
#[cfg(test)]
mod pieces;
#[cfg(test)]
mod placed_layouts;
#[cfg(test)]
mod plans;
