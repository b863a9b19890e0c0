//! Tables made ready to be read many times: columns with their cuts, and rows over pieces of
//! columns, of which the first that holds orders. A reading of them takes no memory.
#![tactic(auto)]

mod column_drafts;
mod column_ends;
mod column_places;
pub mod examples;
pub mod laws;
mod part_plans;
mod piece_ranges;
mod piece_rows;
mod piece_search;
mod plan;
mod plan_column;
mod plan_rows;
mod rising_cuts;
mod row_walk;
mod table_plans;
mod table_reads;
mod truths;

pub use piece_rows::PieceRow;
pub use piece_search::piece_of;
pub use plan::TablePlan;
pub use plan_column::PlanColumn;
pub use plan_rows::{PieceRange, PlanClause, PlanPart, PlanRow, PlanTable};
pub use truths::Truths;
