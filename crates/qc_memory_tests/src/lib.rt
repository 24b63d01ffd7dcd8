//! The memory of a cache by its calls, and the lock over a log.
#![tactic(auto)]

#[cfg(test)]
mod chains;
#[cfg(test)]
mod directory;
#[cfg(test)]
mod full;
#[cfg(test)]
mod lock;
#[cfg(test)]
mod memory;
#[cfg(test)]
mod regions;
#[cfg(test)]
mod steps;
#[cfg(test)]
mod told;
