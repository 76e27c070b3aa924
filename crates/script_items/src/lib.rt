//! What a run is asked: the words of the command line, and the items of a script, which is read from the input or generated.
#![tactic(auto)]

mod generator;
mod item;
mod line;
mod words;

pub use generator::{generate, generated};
pub use item::{Item, next_item};
pub use line::push_count;
pub use words::{Request, request_of};
