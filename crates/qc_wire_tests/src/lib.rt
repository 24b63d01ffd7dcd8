//! Packets, replies, keys and hashes, against bytes that come from outside.
#![tactic(auto)]

#[cfg(test)]
mod commands;
#[cfg(test)]
mod hashes;
#[cfg(test)]
mod packets;
#[cfg(test)]
mod replies;
#[cfg(test)]
mod told;
