//! Tests of columns of the fields of packets, of the kernels over columns, of conditions asked of blocks of tuples, of the slots of
//! keys, and of which keys find room. It has tests alone.
#![tactic(auto)]

#[cfg(test)]
mod columns;
#[cfg(test)]
mod narrow;
#[cfg(test)]
mod registers;
