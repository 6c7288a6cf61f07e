//! Tests of texts and of what stands at the edges, where the built program can't show it: draws, printed scripts, the
//! words of printed logs and of the lines of a scrub, where files are placed, and streams.
//!
//! They stand beside the crates and not in them, since a crate with tests is proved twice.
#![tactic(auto)]

#[cfg(test)]
mod comparing;
#[cfg(test)]
mod generated;
#[cfg(test)]
mod placement;
#[cfg(test)]
mod ports;
#[cfg(test)]
mod printed;
#[cfg(test)]
mod scripts;
#[cfg(test)]
mod scrubbed;
