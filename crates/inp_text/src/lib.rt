//! The text of an input file: the items of its lines, its headings, and the lines of its sections.
#![tactic(auto)]

mod cut;
mod fault;
mod heading;
mod kept_lines;
pub mod laws;
mod line;
mod line_list;
mod section_kind;
mod sections;
mod source_line;
#[cfg(test)]
mod tests;
mod token_places;

pub use cut::cut_line;
pub use fault::TextFault;
pub use heading::first_item;
pub use line::{Span, items};
pub use line_list::{LineText, Lines};
pub use section_kind::SectionKind;
pub use sections::Sections;
pub use source_line::SourceLine;
pub use token_places::{first_control, tokens};
