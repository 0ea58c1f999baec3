//! Tests of the crates that stand on texts, numbers and gates in memory: what no clause says of them. There is no code beside them.
#![tactic(auto)]

#[cfg(test)]
mod advertisements;
#[cfg(test)]
mod answers;
#[cfg(test)]
mod gates;
#[cfg(test)]
mod generated_scripts;
#[cfg(test)]
mod log_fields;
#[cfg(test)]
mod log_files;
#[cfg(test)]
mod patterns;
#[cfg(test)]
mod protocols;
#[cfg(test)]
mod ranges;
#[cfg(test)]
mod summaries;
#[cfg(test)]
mod texts_and_lists;
#[cfg(test)]
mod windows;
#[cfg(test)]
mod words_of_serve;
