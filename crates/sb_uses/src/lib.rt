//! Public calls that no command reaches, and dictionaries through their bounds, each used with ample memory. These are
//! tests alone: a crate that has its own is proved twice.
#![tactic(auto)]

#[cfg(test)]
mod bounds;
#[cfg(test)]
mod cuts;
#[cfg(test)]
mod expecting;
#[cfg(test)]
mod greater;
#[cfg(test)]
mod outside;
#[cfg(test)]
mod reading;
#[cfg(test)]
mod reports;
#[cfg(test)]
mod sets;
#[cfg(test)]
mod sketches;
#[cfg(test)]
mod sums;
#[cfg(test)]
mod texts;
#[cfg(test)]
mod tokens;
#[cfg(test)]
mod tops;
