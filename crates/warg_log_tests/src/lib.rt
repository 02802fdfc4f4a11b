//! What the vectors can't say of digests, messages and logs: types compared, ordered and hashed, calls that do not
//! allocate, and what stands after a refusal.
#![tactic(auto)]

#[cfg(test)]
mod bundles;
#[cfg(test)]
mod crypto;
#[cfg(test)]
mod digests;
#[cfg(test)]
mod images;
#[cfg(test)]
mod log;
#[cfg(test)]
mod messages;
#[cfg(test)]
mod serve;
#[cfg(test)]
mod tiles;
