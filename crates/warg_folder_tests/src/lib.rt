//! What the vectors can't say of logs and registries in folders: what is read beside a log or a map in memory, at each
//! moment of a run too, what is refused by name, and what stands after a refusal.
#![tactic(auto)]

#[cfg(test)]
mod crashes;
#[cfg(test)]
mod discarding;
#[cfg(test)]
mod log_damage;
#[cfg(test)]
mod log_folder;
#[cfg(test)]
mod log_moments;
#[cfg(test)]
mod log_pages;
#[cfg(test)]
mod log_signing;
#[cfg(test)]
mod pages;
#[cfg(test)]
mod registry;
#[cfg(test)]
mod registry_folder;
#[cfg(test)]
mod registry_refused;
#[cfg(test)]
mod served;
