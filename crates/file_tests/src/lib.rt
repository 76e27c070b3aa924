//! Tests of the layers that write the file and keep states, over their public calls: a crate that holds its own tests is proved twice.
#![tactic(auto)]

#[cfg(test)]
mod frames;
#[cfg(test)]
mod records;
#[cfg(test)]
mod spelling;
#[cfg(test)]
mod states;
