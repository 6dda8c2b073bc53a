ghost use Rattle.std.specs.Prelude.{◌≡◌, [], ◌∷◌, drop, MatchOption};
ghost use Rattle.pl_line.specs.Lines.{row};
ghost use Rattle.pl_yaml.specs.Reading.{has_row};

use pl_line::{Line, Rows};
use std::marker::Model;

/// A text that is being read: what is left of the line that is read next, and the lines behind it.
#[derive(Drop)]
pub(crate) struct Reader<'t> {
    current: Option<Line<'t>>,
    behind: Rows<'t>,
}

impl<'t> Model for Reader<'t> {
    ghost use Rattle.std.specs.Prelude.{List as list, [], ◌∷◌};
    ghost use Rattle.std.specs.Option.{option_map_or};
    ghost use Rattle.pl_line.specs.Rows.{Row};
    ghost use Rattle.pl_line.specs.Lines.{row};

    ghost Value = { list Row };

    ghost view = { λ reader. option_map_or (λ line. row line ∷ reader.behind) reader.current [] };
}

impl<'t> Reader<'t> {
    /// Reads these lines.
    pub(crate) fn of(mut rows: Rows<'t>) -> Reader<'t>
        ensures { result ≡ rows.entry }
    {
        let current = rows.next();
        Reader {
            current,
            behind: rows,
        }
    }

    /// The same text once more, to look ahead in.
    pub(crate) fn copy(&self) -> Reader<'t>
        ensures { result ≡ self.now }
    {
        Reader {
            current: self.current,
            behind: self.behind.copy(),
        }
    }

    /// What is left of the line that is read next, or None where no line is left.
    pub(crate) fn first(&self) -> Option<Line<'t>>
        ensures { MatchOption result (self.now ≡ [])
            (λ line. self.now ≡ row line ∷ drop 1 self.now) }
    {
        self.current
    }

    /// Whether a line is left.
    pub(crate) fn has_line(&self) -> bool
        ensures { result ≡ has_row self.now }
    {
        self.current.is_some()
    }

    /// Whether a line is left behind that one.
    pub(crate) fn has_more(&self) -> bool
        ensures { result ≡ has_row (drop 1 self.now) }
    {
        match self.current {
            Some(_) => !self.behind.is_done(),
            None => false,
        }
    }

    /// Takes that line off, where one is left.
    pub(crate) fn advance(&mut self)
        ensures { self.new ≡ drop 1 self.old }
    {
        if self.current.is_some() {
            self.current = self.behind.next();
        }
    }

    /// Puts what is left of that line in its place.
    pub(crate) fn replace(&mut self, line: Line<'t>)
        requires { self.old ≡ [] → ⊥ }
        ensures { self.new ≡ row line.entry ∷ drop 1 self.old }
    {
        self.current = Some(line);
    }
}
