//! Sessions that break off: how each one ends, what it was sent until then, and what the next one on its seat finds.
#![tactic(auto)]

#[cfg(test)]
mod answers;
#[cfg(test)]
mod counted;
#[cfg(test)]
mod crowd;
#[cfg(test)]
mod cuts;
#[cfg(test)]
mod faults;
#[cfg(test)]
mod losses;
#[cfg(test)]
mod player;
#[cfg(test)]
mod puts;
#[cfg(test)]
mod seats;
#[cfg(test)]
mod standard;
#[cfg(test)]
mod told;
