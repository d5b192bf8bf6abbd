// What the relay gives to people: records for the local office, and notices for contacts.

#![tactic(auto)]

pub mod oldest;
