//! What the vectors can't say of maps, witnesses and the program: types compared and hashed, texts of
//! faults, readers and writers that fail, calls that do not allocate, and what stands after a refusal.
#![tactic(auto)]

#[cfg(test)]
mod claims;
#[cfg(test)]
mod faults;
#[cfg(test)]
mod map;
#[cfg(test)]
mod program;
#[cfg(test)]
mod text;
#[cfg(test)]
mod uses;
#[cfg(test)]
mod witness;
