//! The project of an input file: its rules, the tables that they use, and its objects; or its first
//! refusal.
#![tactic(auto)]

mod action;
mod condition;
mod context;
mod controls;
mod draft;
mod formula;
mod keys;
pub mod laws;
mod names;
mod noted;
mod project;
mod rules;
mod statement;
mod text;

pub use project::{Project, read_project};
