//! Tests of what no session shows, over public calls: both models over the same steps, the bytes of events, and replies
//! of large stores. What a command shows is tested by the sessions in `sessions/`, on the program. A crate that holds
//! its own tests is proved twice.
#![tactic(auto)]

#[cfg(test)]
mod cells;
#[cfg(test)]
mod evolutions;
#[cfg(test)]
mod graphs;
#[cfg(test)]
mod metamodels;
#[cfg(test)]
mod package_bytes;
#[cfg(test)]
mod reading;
#[cfg(test)]
mod replies;
#[cfg(test)]
mod scripts;
#[cfg(test)]
mod steps;
