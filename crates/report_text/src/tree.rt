//! The trees of reports.
ghost use Rattle.std.specs.Prelude.{◌≡◌, ◌++◌, OnOk};
ghost use Rattle.std.specs.List.{flat_map};
ghost use Rattle.report_lines.specs.TreeLines.{leaf_text};
ghost use Rattle.report_text.specs.WrittenReports.{text_of, reason_lines, tree_lines};
ghost use Rattle.report_text.specs.internal.RowTexts.{fact_text, leaf_lines};

use crate::line::{write_before, write_fact, write_line, write_split};
use byte_edge::NoMemory;
use object_index::ObjectIndex;
use verdict_meaning::{Cert, Reason};

/// Writes the lines of a tree behind a text. It goes down one call a level.
#[cycle(tree)]
pub(crate) fn write_tree(
    out: &mut Vec<u8>,
    objects: &ObjectIndex,
    tree: &Cert,
) -> Result<(), NoMemory>
    ensures { OnOk result (out.new.items ≡ out.old.items
        ++ text_of (tree_lines objects.now tree.now)) }
{
    match tree {
        Cert::Leaf(reason) => write_leaf(out, reason),
        Cert::Split(key, number, below, at, above) => {
            write_split(out, objects, key, number)?;
            write_tree(out, objects, below.get())?;
            write_tree(out, objects, at.get())?;
            write_tree(out, objects, above.get())
        }
        Cert::Before(moment, before, later) => {
            write_before(out, moment)?;
            write_tree(out, objects, before.get())?;
            write_tree(out, objects, later.get())
        }
    }
}

/// Writes the lines of a leaf.
fn write_leaf(out: &mut Vec<u8>, reason: &Reason) -> Result<(), NoMemory>
    ensures { OnOk result (out.new.items ≡ out.old.items ++ text_of (leaf_lines reason.now)) }
{
    write_line(out, b"leaf")?;
    match reason {
        Reason::Whole => Ok(()),
        Reason::Facts(facts) => write_facts(out, facts.as_slice()),
    }
}

/// Writes the lines of facts.
fn write_facts(out: &mut Vec<u8>, facts: &[(u32, bool)]) -> Result<(), NoMemory>
    ensures { OnOk result (out.new.items ≡ out.old.items ++ flat_map fact_text facts.now) }
{
    for fact in facts {
        write_fact(out, fact)?;
    }
    Ok(())
}
