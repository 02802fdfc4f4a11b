//! What a true verdict is worth: claims about logs and maps, the one theorem of them all, and the two byte strings of one
//! digest that come out of a lie.
#![tactic(auto)]

mod convict;
pub mod laws;
pub mod premises;

pub use convict::{
    convict_absent, convict_entry, convict_entry_path, convict_growth, convict_growth_path,
    convict_insertion, convict_key, convict_update,
};
