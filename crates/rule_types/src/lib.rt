//! The types of control rules, of the states that they are read at and of the answers that reading
//! gives: plain data with equality. What well formed rules are, and which states fit them, stands
//! in specs/.
#![tactic(auto)]

mod action;
mod condition;
pub mod examples;
mod expr;
mod key;
pub mod laws;
mod names;
mod object;
mod refusal;
mod row;
mod rule;
mod rules;
mod state;
mod stop;
mod table;

pub use action::{Action, ActionAt, Branch, CurveNo, Order, PidMemory, PidSet, SeriesNo, What};
pub use condition::{Condition, Right, Side, is_equality, takes_half_step};
pub use expr::Expr;
pub use key::{Attr, ClockAttr, Key};
pub use names::{NameDef, NameKind};
pub use object::{ObjectKind, ObjectNo, ObjectWord, Space};
pub use refusal::{AddFault, Cause, ReadFault, Refusal, earlier_refusal};
pub use row::Row;
pub use rule::Rule;
pub use rules::Rules;
pub use state::{LinkState, State};
pub use stop::{ReadingEnd, RowStop, Stop, StopCause, StopPlace};
pub use table::Point;
