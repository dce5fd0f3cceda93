//! What follows from the definitions of the commands alone, without their code: texts determine the outcome, and commands with fit texts are carried out.
#![tactic(auto)]

pub mod laws;
