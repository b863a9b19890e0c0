//! Plain questions are decided: at each cell of a plain question that has a sample, the cell is
//! shown or the sample has the event. So an answer is not Undecided where the cells are few enough
//! and all have samples.
#![tactic(auto)]

pub mod laws;
