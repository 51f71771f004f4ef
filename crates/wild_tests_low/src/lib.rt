//! Tests of the low crates: records, relocations, the loader's model, rewrites, hash tables, images bound to each other, frames,
//! workers, shards and I/O.
#![tactic(auto)]

#[cfg(test)]
mod aarch64;
#[cfg(test)]
mod fields;
#[cfg(test)]
mod frames;
#[cfg(test)]
mod hashes;
#[cfg(test)]
mod images;
#[cfg(test)]
mod instructions;
#[cfg(test)]
mod io;
#[cfg(test)]
mod loader;
#[cfg(test)]
mod names;
#[cfg(test)]
mod records;
#[cfg(test)]
mod rewrites;
#[cfg(test)]
mod sequences;
#[cfg(test)]
mod shards;
#[cfg(test)]
mod spaces;
#[cfg(test)]
mod stubs;
#[cfg(test)]
mod tables;
#[cfg(test)]
mod words;
#[cfg(test)]
mod workers;
