//! The law of generated scripts: they are in the grammar of scripts.
#![tactic(auto)]

mod law;

pub use law::a_generated_script_is_a_script;
