//! Tests of the reader of plans, of printed answers and of the writers of tables: what no contract says, with values from other tools.
#![tactic(auto)]

#[cfg(test)]
mod answers;
#[cfg(test)]
mod layouts;
#[cfg(test)]
mod members;
#[cfg(test)]
mod symbols;
#[cfg(test)]
mod tables;
#[cfg(test)]
mod versions;
