//! Maps that are read off a map of parts: definitions and laws.
#![tactic(auto)]
