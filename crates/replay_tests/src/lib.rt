//! Tests of whole replays: how many table rows are tried, that files are read in blocks, and that the
//! slow reading orders what the tables order.
#![tactic(auto)]

#[cfg(test)]
mod both_readings;
#[cfg(test)]
mod tests;
