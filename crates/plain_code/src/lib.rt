//! Plain statements, which reach no async or finish, and the flat code of a program's largest ones.

#![tactic(auto)]

pub mod calm;
pub mod laws;
pub mod pieces;
