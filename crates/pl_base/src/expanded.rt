use crate::exact_copy::ExactCopy;
use crate::list::List;
use crate::memory::Memory;
use crate::place::{FileKey, Place};
use crate::text::Text;
use crate::value::MarkedNode;
use std::alloc::Global;

/// A run argument: the parameter's name, and the text that is given for it.
#[derive(Debug, Drop, PartialEq, Eq)]
pub struct Argument {
    pub name: Text,
    pub text: Text,
}

/// A repository of the root file's `resources`: the alias that template paths use, its name and
/// the ref under which its files are read.
#[derive(Debug, Drop, PartialEq, Eq)]
pub struct Repository {
    pub alias: Text,
    pub name: Text,
    pub git_ref: Text,
}

/// A pipeline after its templates were expanded: the tree, the root file, the template that it
/// extends, the repositories of the root file, and the files that were used, in the order in which
/// they were first reached.
#[derive(Debug, Drop)]
pub struct Expanded {
    pub tree: MarkedNode,
    pub root: FileKey,
    pub extends: Option<FileKey>,
    pub repositories: List<Repository>,
    pub used: List<FileKey>,
}

/// Why a pipeline doesn't compile: the fault's code, its place and what else is told of it.
#[derive(Debug, Drop, PartialEq, Eq)]
pub struct Refusal {
    pub code: Text,
    pub place: Place,
    pub detail: List<Text>,
}

impl ExactCopy for Argument {
    fn copy(&self, alloc: Global) -> Result<Argument, Memory> {
        let name = self.name.copy(alloc)?;
        let text = self.text.copy(alloc)?;
        Ok(Argument { name, text })
    }
}

impl ExactCopy for Repository {
    fn copy(&self, alloc: Global) -> Result<Repository, Memory> {
        let alias = self.alias.copy(alloc)?;
        let name = self.name.copy(alloc)?;
        let git_ref = self.git_ref.copy(alloc)?;
        Ok(Repository {
            alias,
            name,
            git_ref,
        })
    }
}

impl ExactCopy for Refusal {
    fn copy(&self, alloc: Global) -> Result<Refusal, Memory> {
        let code = self.code.copy(alloc)?;
        let place = self.place.copy(alloc)?;
        let detail = self.detail.copy(alloc)?;
        Ok(Refusal {
            code,
            place,
            detail,
        })
    }
}
