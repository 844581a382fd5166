//! Tests that cross crates: runs of the top call over memory, named by what they show.
#![tactic(auto)]

#[cfg(test)]
mod counts;
#[cfg(test)]
mod ends;
#[cfg(test)]
mod frames;
#[cfg(test)]
mod made;
#[cfg(test)]
mod moving;
#[cfg(test)]
mod probes;
#[cfg(test)]
mod rows;
#[cfg(test)]
mod serving;
#[cfg(test)]
mod trials;
#[cfg(test)]
mod updating;
#[cfg(test)]
mod workers;
