//! Commands as they are called, where a table of texts (`sn_test_tables`) can't tell it: reads and writes that fail, each byte another, bytes
//! that are no text, large texts, and what one command makes of what another wrote. It has tests alone.
#![tactic(auto)]

#[cfg(test)]
mod call;
#[cfg(test)]
mod faults;
#[cfg(test)]
mod jobs;
#[cfg(test)]
mod membership;
#[cfg(test)]
#[cfg(test)]
mod top;
