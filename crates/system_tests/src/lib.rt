//! Tests that cross the crates: programs as bytes, from the decoder to the exit value; and those of the
//! public calls of the crates below, with the parts that keep elements. Of the commands of `bpfrt`, through `parse_words` and
//! `run`: what streams do that no program is given, and texts that none writes. What else the commands do is compared by `checks`.
#![tactic(auto)]

#[cfg(test)]
mod alone;
#[cfg(test)]
mod arena;
#[cfg(test)]
mod arrays;
#[cfg(test)]
mod codec;
#[cfg(test)]
mod compared;
#[cfg(test)]
mod grace;
#[cfg(test)]
mod indexes;
#[cfg(test)]
mod joins;
#[cfg(test)]
mod map_tables;
#[cfg(test)]
mod numbers;
#[cfg(test)]
mod programs;
#[cfg(test)]
mod registries;
#[cfg(test)]
mod sets;
#[cfg(test)]
mod standing;
#[cfg(test)]
mod streams;
#[cfg(test)]
mod text;
#[cfg(test)]
mod told;
#[cfg(test)]
mod vectors;
