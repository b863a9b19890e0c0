//! Tables as text. Each function here writes behind what a text has, and says nothing of the text
//! where memory is wanting.
ghost use Rattle.std.specs.Prelude.{◌≡◌, ◌+◌, ◌++◌, OnOk, codes, slice_get};
ghost use Rattle.std.specs.Fmt.{decimal};
ghost use Rattle.num_text.specs.Values.{written_value};
ghost use Rattle.std.specs.List.{flat_map};
ghost use Rattle.table_compiler.specs.TableText.{joined, low_text, high_text, piece_text, set_text};
ghost use Rattle.table_compiler.specs.TableText.{column_text, name_of, part_text, clause_text};
ghost use Rattle.table_compiler.specs.TableText.{branch_word as word_of_branch};
ghost use Rattle.table_compiler.specs.TableText.{row_word as word_of_row, row_line, row_text};
ghost use Rattle.table_compiler.specs.TableText.{link_text};

use crate::part::{Column, Part};
use crate::table::{Clause, LinkTable, TableRow};
use byte_edge::NoMemory;
use exact_fraction::frac::Frac;
use interval_sets::{Bound, Interval};
use key_words::{name_text, write_key};
use num_text::values::value_text;
use object_index::ObjectIndex;
use rule_types::{Branch, NameDef, ObjectNo, Rules, Side, Space};

/// Writes tables.
pub(crate) fn write_tables(
    out: &mut Vec<u8>,
    rules: &Rules,
    objects: &ObjectIndex,
    tables: &[LinkTable],
) -> Result<(), NoMemory>
    ensures { OnOk result (out.new.items
        ≡ out.old.items ++ flat_map (link_text rules.now objects.now) tables.now) }
{
    for table in tables {
        write_table(out, rules, objects, table)?;
    }
    Ok(())
}

/// Writes the table of a link.
#[tactic(auto, unfolding(crate::specs::TableText::link_text))]
fn write_table(
    out: &mut Vec<u8>,
    rules: &Rules,
    objects: &ObjectIndex,
    table: &LinkTable,
) -> Result<(), NoMemory>
    ensures { OnOk result
        (out.new.items ≡ out.old.items ++ link_text rules.now objects.now table.now) }
{
    let link = ObjectNo {
        space: Space::Links,
        index: table.link,
    };
    out.extend_from_slice(b"link ")?;
    out.extend_from_slice(name_text(objects, link))?;
    out.extend_from_slice(b"\n")?;
    write_rows(out, rules, objects, table.rows.as_slice())
}

/// Writes rows.
fn write_rows(
    out: &mut Vec<u8>,
    rules: &Rules,
    objects: &ObjectIndex,
    rows: &[TableRow],
) -> Result<(), NoMemory>
    ensures { OnOk result (out.new.items
        ≡ out.old.items ++ flat_map (row_text rules.now objects.now) rows.now) }
{
    for row in rows {
        write_row(out, rules, objects, row)?;
    }
    Ok(())
}

/// Writes a row.
fn write_row(
    out: &mut Vec<u8>,
    rules: &Rules,
    objects: &ObjectIndex,
    row: &TableRow,
) -> Result<(), NoMemory>
    ensures { OnOk result
        (out.new.items ≡ out.old.items ++ row_text rules.now objects.now row.now) }
{
    write_row_line(out, row)?;
    write_clauses(out, rules, objects, row.clauses.as_slice())
}

/// Writes the line of a row.
#[tactic(auto, unfolding(crate::specs::TableText::row_line))]
fn write_row_line(out: &mut Vec<u8>, row: &TableRow) -> Result<(), NoMemory>
    ensures { OnOk result (out.new.items ≡ out.old.items ++ row_line row.now) }
{
    let at = row.action;
    out.extend_from_slice(b"row ")?;
    write_count(out, at.rule)?;
    out.extend_from_slice(branch_word(at.branch))?;
    write_count(out, at.action)?;
    out.extend_from_slice(row_word(row.negated))?;
    Ok(())
}

/// Writes the number, from 1, of what stands at a place, from 0.
fn write_count(out: &mut Vec<u8>, place: u32) -> Result<(), NoMemory>
    ensures { OnOk result (out.new.items ≡ out.old.items ++ decimal (place + 1)) }
{
    let number = (place as u64 + 1).to_string(*out.allocator())?;
    out.extend_from_slice(number.as_bytes())?;
    Ok(())
}

/// The word of a branch, between blanks.
fn branch_word(branch: Branch) -> &'static [u8]
    ensures { result.now ≡ word_of_branch branch }
{
    match branch {
        Branch::Then => b" then ",
        Branch::Otherwise => b" else ",
    }
}

/// The word of a row, at the end of its line.
fn row_word(negated: bool) -> &'static [u8]
    ensures { result.now ≡ word_of_row negated }
{
    if negated {
        return b" unless\n";
    }
    b" when\n"
}

/// Writes the clauses of a row.
fn write_clauses(
    out: &mut Vec<u8>,
    rules: &Rules,
    objects: &ObjectIndex,
    clauses: &[Clause],
) -> Result<(), NoMemory>
    ensures { OnOk result (out.new.items
        ≡ out.old.items ++ flat_map (clause_text rules.now objects.now) clauses.now) }
{
    for clause in clauses {
        write_clause(out, rules, objects, clause)?;
    }
    Ok(())
}

/// Writes a clause.
#[tactic(auto, unfolding(crate::specs::TableText::clause_text))]
fn write_clause(
    out: &mut Vec<u8>,
    rules: &Rules,
    objects: &ObjectIndex,
    clause: &Clause,
) -> Result<(), NoMemory>
    ensures { OnOk result
        (out.new.items ≡ out.old.items ++ clause_text rules.now objects.now clause.now) }
{
    out.extend_from_slice(b"clause ")?;
    write_parts(out, rules, objects, clause.parts.as_slice())?;
    out.extend_from_slice(b"\n")?;
    Ok(())
}

/// Writes parts, joined by ` | `.
fn write_parts(
    out: &mut Vec<u8>,
    rules: &Rules,
    objects: &ObjectIndex,
    parts: &[Part],
) -> Result<(), NoMemory>
    ensures { OnOk result (out.new.items
        ≡ out.old.items ++ joined (codes " | ") (part_text rules.now objects.now) parts.now) }
{
    let Some((first, more)) = parts.split_first() else {
        return Ok(());
    };
    write_part(out, rules, objects, first)?;
    write_more_parts(out, rules, objects, more)
}

/// Writes parts, each behind ` | `.
fn write_more_parts(
    out: &mut Vec<u8>,
    rules: &Rules,
    objects: &ObjectIndex,
    parts: &[Part],
) -> Result<(), NoMemory>
    ensures { OnOk result (out.new.items ≡ out.old.items
        ++ flat_map (λ next. codes " | " ++ part_text rules.now objects.now next) parts.now) }
{
    for part in parts {
        out.extend_from_slice(b" | ")?;
        write_part(out, rules, objects, part)?;
    }
    Ok(())
}

/// Writes a part.
fn write_part(
    out: &mut Vec<u8>,
    rules: &Rules,
    objects: &ObjectIndex,
    part: &Part,
) -> Result<(), NoMemory>
    ensures { OnOk result
        (out.new.items ≡ out.old.items ++ part_text rules.now objects.now part.now) }
{
    match part {
        Part::Column(column, set) => {
            write_column(out, rules, objects, column)?;
            out.extend_from_slice(b" ")?;
            write_set(out, set.pieces())
        }
        Part::Number(place) => {
            out.extend_from_slice(b"cond ")?;
            write_count(out, *place)
        }
    }
}

/// Writes a column.
fn write_column(
    out: &mut Vec<u8>,
    rules: &Rules,
    objects: &ObjectIndex,
    column: &Column,
) -> Result<(), NoMemory>
    ensures { OnOk result
        (out.new.items ≡ out.old.items ++ column_text rules.now objects.now column.now) }
{
    match column {
        Side::Key(key) => write_key(out, objects, key),
        Side::Expr(name) => write_expression(out, rules.names.as_slice(), *name),
    }
}

/// Writes the expression of a place among the names.
fn write_expression(out: &mut Vec<u8>, names: &[NameDef], name: u32) -> Result<(), NoMemory>
    ensures { OnOk result (out.new.items
        ≡ out.old.items ++ codes "EXPRESSION " ++ name_of (slice_get names.now name)) }
{
    out.extend_from_slice(b"EXPRESSION ")?;
    out.extend_from_slice(name_at(names, name))?;
    Ok(())
}

/// The name at a place, and none where there is no such place.
fn name_at(names: &[NameDef], name: u32) -> &[u8]
    ensures { result.now ≡ name_of (slice_get names.now name) }
{
    match names.get(name as usize) {
        Some(named) => named.name.as_slice(),
        None => b"",
    }
}

/// Writes the pieces of a set, joined by blanks.
fn write_set(out: &mut Vec<u8>, pieces: &[Interval]) -> Result<(), NoMemory>
    ensures { OnOk result (out.new.items ≡ out.old.items ++ set_text pieces.now) }
{
    let Some((first, more)) = pieces.split_first() else {
        return Ok(());
    };
    write_piece(out, first)?;
    write_more_pieces(out, more)
}

/// Writes pieces of a set, each behind a blank.
fn write_more_pieces(out: &mut Vec<u8>, pieces: &[Interval]) -> Result<(), NoMemory>
    ensures { OnOk result (out.new.items
        ≡ out.old.items ++ flat_map (λ next. codes " " ++ piece_text next) pieces.now) }
{
    for piece in pieces {
        out.extend_from_slice(b" ")?;
        write_piece(out, piece)?;
    }
    Ok(())
}

/// Writes a piece of a set.
fn write_piece(out: &mut Vec<u8>, piece: &Interval) -> Result<(), NoMemory>
    ensures { OnOk result (out.new.items ≡ out.old.items ++ piece_text piece.now) }
{
    write_low(out, &piece.low)?;
    out.extend_from_slice(b",")?;
    write_high(out, &piece.high)
}

/// Writes the low end of a piece.
fn write_low(out: &mut Vec<u8>, low: &Bound) -> Result<(), NoMemory>
    ensures { OnOk result (out.new.items ≡ out.old.items ++ low_text low.now) }
{
    match low {
        Bound::NoBound => {
            out.extend_from_slice(b"(-inf")?;
            Ok(())
        }
        Bound::Bound(number, true) => {
            out.extend_from_slice(b"(")?;
            write_number(out, *number)
        }
        Bound::Bound(number, false) => {
            out.extend_from_slice(b"[")?;
            write_number(out, *number)
        }
    }
}

/// Writes the high end of a piece.
fn write_high(out: &mut Vec<u8>, high: &Bound) -> Result<(), NoMemory>
    ensures { OnOk result (out.new.items ≡ out.old.items ++ high_text high.now) }
{
    match high {
        Bound::NoBound => {
            out.extend_from_slice(b"+inf)")?;
            Ok(())
        }
        Bound::Bound(number, true) => {
            write_number(out, *number)?;
            out.extend_from_slice(b")")?;
            Ok(())
        }
        Bound::Bound(number, false) => {
            write_number(out, *number)?;
            out.extend_from_slice(b"]")?;
            Ok(())
        }
    }
}

/// Writes a number.
fn write_number(out: &mut Vec<u8>, number: Frac) -> Result<(), NoMemory>
    ensures { OnOk result (out.new.items ≡ out.old.items ++ written_value number) }
{
    let written = value_text(number);
    out.extend_from_slice(written.as_bytes())?;
    Ok(())
}
