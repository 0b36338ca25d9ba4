//! Worked windows, from texts and packets to answers: registers, report frames, the lanes of a switch, the engine, refinement, several
//! switches, nets and what drives them. It has tests alone, which cross the crates of all these.
#![tactic(auto)]

#[cfg(test)]
mod cuts;
#[cfg(test)]
mod dropped;
#[cfg(test)]
mod engine;
#[cfg(test)]
mod epochs;
#[cfg(test)]
mod frames;
#[cfg(test)]
mod lanes;
#[cfg(test)]
mod lockstep;
#[cfg(test)]
mod many;
#[cfg(test)]
mod nets;
#[cfg(test)]
mod refined;
#[cfg(test)]
mod registers;
#[cfg(test)]
mod schedules;
#[cfg(test)]
mod texts;
