//! Tests of the engines that stand on the model, in one crate, so that each of those is proved once.
//!
//! Each call that may find no memory is made once with ample memory, and limits are reached: numbers that run out, a log
//! and a selector cache that drop their first change, maps of 16,384 entries and of one more. What a contract says is not
//! tested again.
#![tactic(auto)]

#[cfg(test)]
mod changes;
#[cfg(test)]
mod filters;
#[cfg(test)]
mod full_maps;
#[cfg(test)]
mod identities;
#[cfg(test)]
mod maps;
#[cfg(test)]
mod policy;
#[cfg(test)]
mod scripts;
#[cfg(test)]
mod selectors;
#[cfg(test)]
mod works;
