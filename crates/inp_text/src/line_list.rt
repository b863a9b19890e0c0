//! A plain list of lines.
ghost use Rattle.std.specs.Prelude.{◌≡◌, [], ◌∷◌, ◌++◌, List, Option, option_map, slice_get};
ghost use Rattle.std.specs.Prelude.{IfOk, OnOk, OnErr};
ghost use Rattle.inp_text.specs.LineList.{line_of};

use byte_edge::NoMemory;
use list_types::Bytes;
use std::alloc::Global;
use std::marker::Model;

/// A line of a list.
#[derive(Clone, Copy, Debug)]
pub enum LineText<'a> {
    /// Its bytes, without its end.
    Text(&'a [u8]),
    /// It was too long.
    Long,
}

/// The lines of a file, in their order: contracts see a list of texts, with nothing for a line that
/// was too long.
#[derive(Debug, Drop)]
pub struct Lines {
    lines: Vec<Option<Bytes>>,
}

impl Model for Lines {
    ghost use Rattle.std.specs.Prelude.{List, Option, ℕ};

    ghost Value = { List (Option (List ℕ)) };

    ghost view = { λ list. list.lines.items };
}

impl Lines {
    /// No lines, which take no memory; the lines that are taken later are held in memory from
    /// `alloc`.
    pub fn new(alloc: Global) -> Lines
        ensures value { result ≡ [] }
    {
        Lines {
            lines: Vec::new(alloc),
        }
    }

    /// Takes the next line, None for one that was too long. After NoMemory the lines are as before.
    pub fn push(&mut self, line: Option<&[u8]>) -> Result<(), NoMemory>
        ensures taken { OnOk result
            (self.new ≡ self.old ++ option_map (λ bytes. bytes.now) line.entry ∷ []) }
        ensures unchanged { OnErr result (self.new ≡ self.old) }
    {
        match line {
            Some(bytes) => {
                let Ok(copy) = Vec::from_slice(*self.lines.allocator(), bytes) else {
                    return Err(NoMemory);
                };
                push_line(&mut self.lines, Some(Bytes::from_vec(copy)))
            }
            None => push_line(&mut self.lines, None),
        }
    }

    /// The line at `at`, from 0, or None exactly where there are not so many.
    pub fn get(&self, at: usize) -> Option<LineText<'_>>
        ensures value { option_map line_of result ≡ slice_get self.now at }
    {
        match self.lines.get(at) {
            Some(Some(bytes)) => Some(LineText::Text(bytes.as_slice())),
            Some(None) => Some(LineText::Long),
            None => None,
        }
    }
}

/// Adds a line to some lines.
fn push_line(lines: &mut Vec<Option<Bytes>>, line: Option<Bytes>) -> Result<(), NoMemory>
    ensures added { OnOk result (lines.new.items ≡ lines.old.items ++ line ∷ []) }
    ensures unchanged { OnErr result (lines.new.items ≡ lines.old.items) }
{
    match lines.push(line) {
        Ok(()) => Ok(()),
        Err(_) => Err(NoMemory),
    }
}
