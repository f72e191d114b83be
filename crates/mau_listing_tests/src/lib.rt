//! Tests over the public calls of several crates: orders of sorts, terms, signatures and their faults, stores, sorts of terms, normal
//! forms, lists, and what listings give, over one signature with all axioms. Without its tests it has nothing.
#![tactic(auto)]

#[cfg(test)]
mod agreement;
#[cfg(test)]
mod asking;
#[cfg(test)]
mod contexts;
#[cfg(test)]
mod copies;
#[cfg(test)]
mod faults;
#[cfg(test)]
mod laziness;
#[cfg(test)]
mod listings;
#[cfg(test)]
mod lists;
#[cfg(test)]
mod norms;
#[cfg(test)]
mod notation;
#[cfg(test)]
mod orders;
#[cfg(test)]
mod parts;
#[cfg(test)]
mod readers;
#[cfg(test)]
mod signature;
#[cfg(test)]
mod signed;
#[cfg(test)]
mod solutions;
#[cfg(test)]
mod sorts;
#[cfg(test)]
mod stores;
#[cfg(test)]
mod taken;
#[cfg(test)]
mod terms;
#[cfg(test)]
mod values;
