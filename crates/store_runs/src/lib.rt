//! A run over a store: what there is to do is a list of answers, each printed once its event is kept. The store is opened, and then the
//! work is done: a script is served, behind a gate that may refuse a line, or one reply is shown.
#![tactic(auto)]

mod gate;
mod serving;
mod showing;
mod work;

pub use gate::{Gate, Unguarded};
pub use serving::{answer_item, serve};
pub use showing::show;
pub use work::{Work, over_store};
