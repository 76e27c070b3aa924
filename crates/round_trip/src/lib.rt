//! What a document that is brought in leaves, said by look-ups. The round trip: a model's text, brought into an empty project, is
//! shown as the same text. Laws alone: a law is the contract of a function that does nothing.
#![tactic(auto)]

mod laws;

pub use laws::{
    law_of_descriptions, law_of_imported_elements, law_of_reading, law_of_reading_back,
    law_of_round_trips,
};
