//! Parts of commands, without the top call: words, files, refusals and training captures. It has tests alone.
#![tactic(auto)]

#[cfg(test)]
mod files;
#[cfg(test)]
mod refusals;
#[cfg(test)]
mod training;
#[cfg(test)]
mod words;
