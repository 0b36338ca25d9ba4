//! Tests of rows and their tables, of files and captures, and of the fields of packets. It has tests alone, which cross
//! the crates of captures.
#![tactic(auto)]

#[cfg(test)]
mod files;
#[cfg(test)]
mod generated;
#[cfg(test)]
mod headers;
#[cfg(test)]
mod packets;
#[cfg(test)]
mod reader;
#[cfg(test)]
mod records;
#[cfg(test)]
mod rows;
#[cfg(test)]
mod tables;
#[cfg(test)]
mod windows;
