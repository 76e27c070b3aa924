//! Texts, lists and boxed values that contracts see as what they hold: the text as its bytes, the list as its items.
#![tactic(auto)]

mod boxed;
mod compact_list;
mod fixed_text;
mod list;
mod text;

pub use boxed::Boxed;
pub use compact_list::CompactList;
pub use list::List;
pub use text::Text;
