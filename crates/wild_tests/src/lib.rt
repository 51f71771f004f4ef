//! Tests of the two programs over input and output in memory: commands, reads and writes that fail, sizes and needs.
#![tactic(auto)]

#[cfg(test)]
mod explain;
#[cfg(test)]
mod io;
#[cfg(test)]
mod program;
