ghost use Rattle.std.specs.Prelude.{◌≡◌};

use pl_base::{
    Crossing, FileKey, List, MarkedNode, Memory, Place, Shared, SharedList, Text, Value,
};
use pl_budgets::Meter;
use pl_eval::{weight_of, work_of};
use std::marker::Model;

/// A parameter that is bound in a frame: its name, where it is declared, its value, and whether
/// that was given. What wasn't given is the default, which is a literal of the frame's own file.
#[derive(Debug, Drop)]
pub struct Parameter {
    pub name: Text,
    pub place: Place,
    pub value: MarkedNode,
    pub given: bool,
}

/// A variable of the root file or of the run.
#[derive(Debug, Drop)]
pub struct Variable {
    pub name: Text,
    pub value: Value,
}

/// Variables in order, and what the expansion may still make and do. Contracts see the list alone.
#[derive(Debug, Drop)]
pub struct Variables {
    all: List<Variable>,
    meter: Meter,
}

impl Model for Variables {
    ghost use Rattle.std.specs.Prelude.{List as list};
    ghost use Rattle.std.specs.Coded.{coded_list};
    ghost use Rattle.pl_frame.specs.contracts.frame.Variable as one;
    ghost use Rattle.pl_frame.specs.declared.frame.Variable.{Variable as One};

    ghost Value = { list One };

    ghost coded = { coded_list one.the_row.coded };

    ghost view = { λ variables. variables.all };
}

impl Variables {
    /// These variables, under a meter.
    pub fn new(all: List<Variable>, meter: Meter) -> Variables
        ensures { result ≡ all }
    {
        Variables { all, meter }
    }

    /// The variables as a list.
    pub fn all(&self) -> &List<Variable>
        ensures { result.now ≡ self.now }
    {
        &self.all
    }

    /// What the expansion may still make and do.
    pub fn meter(&self) -> &Meter {
        &self.meter
    }
}

/// What a loop's name stands for in one of its turns.
#[derive(Debug, Drop)]
pub struct Loop {
    pub name: Text,
    pub item: MarkedNode,
}

/// Where an expansion stands: the file, its parameters, the variables, the loops around with the
/// innermost last, and the borders that were crossed on the way to the file. Frames share these
/// lists, so that one more loop costs no copy of them.
#[derive(Debug, Drop)]
pub struct Frame {
    pub file: Shared<FileKey>,
    pub parameters: Shared<List<Parameter>>,
    pub variables: Shared<Variables>,
    pub loops: SharedList<Loop>,
    pub crossings: SharedList<Crossing>,
}

impl Frame {
    /// What the expansion may still make and do.
    pub fn meter(&self) -> &Meter {
        self.variables.meter()
    }

    /// A value that is put into what is made, or that a loop goes over, counts as made. Memory where
    /// no more may be.
    pub fn keep(&self, value: &Value) -> Result<(), Memory> {
        let weight = weight_of(value);
        self.meter().make(weight)?;
        self.meter().work(work_of(weight))
    }

    /// Characters that are put into what is made count as made. Memory where no more may be.
    pub fn keep_text(&self, text: &Text) -> Result<(), Memory> {
        let bytes = text.len() as u64;
        self.meter().make(bytes)?;
        self.meter().work(bytes)
    }

    /// A text is read for expressions. Memory where no more work may be done.
    pub fn read_text(&self, text: &Text) -> Result<(), Memory> {
        let bytes = text.len() as u64;
        self.meter()
            .work(bytes.saturating_mul(4).saturating_add(32))
    }
}
