ghost use Rattle.std.specs.Prelude.{◌≡◌, ◌≤◌, [], ◌∷◌, length, take, drop, MatchOption};
ghost use Rattle.pl_line.specs.Characters.{all_of};
ghost use Rattle.pl_line.specs.Lines.{row};
ghost use Rattle.pl_yaml.specs.BlockScalars as spec;

use crate::block_line::BlockLine;
use crate::reader::Reader;
use pl_line::Line;
use std::marker::Model;

/// The lines of a block scalar that are still to be looked at: so many, whose content begins at
/// that column.
#[derive(Drop)]
pub(crate) struct BlockLines<'t> {
    column: Option<u64>,
    reader: Reader<'t>,
    left: usize,
}

impl<'t> Model for BlockLines<'t> {
    ghost use Rattle.std.specs.Prelude.{List as list, ◌≤◌, length, take};
    ghost use Rattle.pl_yaml.specs.BlockScalars.{TextLine, text_lines};

    ghost Value = { list TextLine };

    ghost view = { λ lines. take lines.left (text_lines lines.column lines.reader) };

    ghost invariant = { λ lines. lines.left ≤ length lines.reader };
}

impl<'t> BlockLines<'t> {
    /// So many lines from those rows on.
    pub(crate) fn of(column: Option<u64>, reader: Reader<'t>, left: usize) -> BlockLines<'t>
        requires { left ≤ length reader }
        ensures { result ≡ take left (spec.text_lines column reader.entry) }
    {
        BlockLines {
            column,
            reader,
            left,
        }
    }

    /// The same lines once more, to look ahead in.
    pub(crate) fn copy(&self) -> BlockLines<'t>
        ensures { result ≡ self.now }
    {
        BlockLines {
            column: self.column,
            reader: self.reader.copy(),
            left: self.left,
        }
    }

    /// The first line, or None where no line is left.
    #[tactic(auto, using(crate::proofs::Laws::BlockScalars::seen))]
    pub(crate) fn first(&self) -> Option<BlockLine<'t>>
        ensures { MatchOption result (self.now ≡ []) (λ line. self.now ≡ spec.text_line line ∷
            drop 1 self.now) }
    {
        if self.left == 0 {
            return None;
        }
        let line = self.reader.first()?;
        Some(line_from(self.column, &line, self.reader.has_more()))
    }

    /// Takes the first line off, or None where no line is left.
    #[tactic(auto, using(crate::proofs::Laws::BlockScalars::taken))]
    pub(crate) fn next(&mut self) -> Option<BlockLine<'t>>
        ensures { MatchOption result ((self.old ≡ []) × (self.new ≡ [])) (λ line. self.old ≡
            spec.text_line line ∷ self.new) }
    {
        if self.left == 0 {
            return None;
        }
        let line = self.reader.first()?;
        self.reader.advance();
        self.left -= 1;
        Some(line_from(self.column, &line, self.reader.has_line()))
    }
}

/// A line of a block scalar, behind which a break follows or not.
fn line_from<'t>(column: Option<u64>, line: &Line<'t>, broken: bool) -> BlockLine<'t>
    ensures { spec.text_line result ≡ spec.line_from column (row line.now) broken }
{
    match column {
        Some(column) if column <= u64::from(line.column) => BlockLine {
            spaces: (u64::from(line.column) - column) as u32,
            text: line.text,
            broken,
        },
        _ => BlockLine {
            spaces: 0,
            text: line.text.front(0),
            broken,
        },
    }
}
