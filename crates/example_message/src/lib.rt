//! Messages: maps of named parts to maps of named numbers, read and overwritten in place.
#![tactic(auto)]

pub mod message;
