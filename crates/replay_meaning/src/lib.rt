//! What a replay of rules keeps from row to row of a trace, and for which rows that stands: the
//! definitions are in specs/, and the functions here do nothing. Their contracts state laws, which
//! the check proves.
#![tactic(auto)]

pub mod laws;
