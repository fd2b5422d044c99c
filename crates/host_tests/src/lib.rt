//! Tests of what only the host shows: threads that claim, check and prove beside each other; and files, output and the gate, those in memory
//! beside those of the host.
#![tactic(auto)]

#[cfg(test)]
mod answers;
#[cfg(test)]
mod beside;
#[cfg(test)]
mod claiming;
#[cfg(test)]
mod gates;
#[cfg(test)]
mod host;
#[cfg(test)]
mod memory;
#[cfg(test)]
mod reading;
#[cfg(test)]
mod reports;
