ghost use Rattle.std.specs.Prelude.{◌≡◌, Some, find, IfOk};
ghost use Rattle.std.specs.FinMap as finite;
ghost use Rattle.std.specs.List.{list_any};
ghost use Rattle.std.specs.Option.{option_copied};
ghost use Rattle.pl_base.specs.Files.{file_cmp};
ghost use Rattle.pl_base.specs.Texts.{is};
ghost use Rattle.pl_directives.specs.Complaints.{refused};
ghost use Rattle.pl_directives.specs.Gives.{Gives};
ghost use Rattle.pl_directives.specs.declared.fault.ExpandProblem.TheVariants.{FileMissing};
ghost use Rattle.pl_calls.specs.Gives.{GivesFrom, GivesUsed};
ghost use Rattle.pl_calls.specs.Reaching.{file_in, target, aliased, same_file, is_called};
ghost use Rattle.pl_calls.specs.Reaching.{called_then, found_at, opened_at};

use crate::files::{Files, Parsed};
use pl_base::{ExactCopy, FileKey, List, Memory, Place, Repository, Shared, Text};
use pl_directives::{ExpandFault, ExpandProblem, complain};
use pl_paths::{TemplatePath, cut_path, from_file, from_root};
use std::alloc::Global;

/// How many files a pipeline may call.
const MOST_FILES: usize = 100;

/// Where paths lead: the root file, whose repository is `self`, and the repositories of its
/// resources.
#[derive(Drop)]
pub struct Home {
    pub root: FileKey,
    pub repositories: List<Repository>,
}

/// The files of repositories, where paths lead among them, and the files that were called so far,
/// each once, in the order in which they were reached first.
#[derive(Drop)]
pub struct Reach<'r, F> {
    pub files: &'r mut F,
    pub home: &'r Home,
    pub used: &'r mut List<FileKey>,
}

/// A file that a path leads to, and its key.
#[derive(Drop)]
pub struct Opened {
    pub key: Shared<FileKey>,
    pub file: Shared<Parsed>,
}

/// A file of a repository, where a path leads to one.
fn file_in(
    alloc: Global,
    repo: &Text,
    git_ref: &Text,
    path: Option<Text>,
) -> Result<Option<FileKey>, Memory>
    ensures { IfOk result (λ file. file ≡ file_in repo.now git_ref.now path) }
{
    let Some(path) = path else {
        return Ok(None);
    };
    let repo = repo.copy(alloc)?;
    let git_ref = git_ref.copy(alloc)?;
    Ok(Some(FileKey {
        repo,
        git_ref,
        path,
    }))
}

/// The repository of an alias.
#[tactic(auto, using(pl_base::proofs::Finding::find_drop_yes, pl_base::proofs::Finding::find_drop_no))]
fn repository_of<'h>(repositories: &'h List<Repository>, alias: &Text) -> Option<&'h Repository>
    ensures { option_copied result ≡ find (λ one. is one.alias alias.now) repositories.now }
{
    for one in repositories.as_slice() {
        if one.alias.as_str() == alias.as_str() {
            return Some(one);
        }
    }
    None
}

/// The file that a path with an alias leads to. X11 where no repository has that alias.
fn aliased(
    alloc: Global,
    at: &Place,
    alias: &Text,
    path: &Text,
    home: &Home,
) -> Result<Option<FileKey>, ExpandFault>
    ensures { Gives result (aliased at.now alias.now path.now home.now) }
{
    if alias.as_str() == "self" {
        let path = from_root(alloc, path)?;
        return Ok(file_in(alloc, &home.root.repo, &home.root.git_ref, path)?);
    }
    let Some(one) = repository_of(&home.repositories, alias) else {
        let first = complain(alloc, ExpandProblem::UnknownAlias, at)?;
        return Err(ExpandFault::Refused(first));
    };
    let path = from_root(alloc, path)?;
    Ok(file_in(alloc, &one.name, &one.git_ref, path)?)
}

/// The file that a path leads to that an item at a place holds.
fn target(
    alloc: Global,
    at: &Place,
    cut: &TemplatePath,
    home: &Home,
) -> Result<Option<FileKey>, ExpandFault>
    ensures { Gives result (target at.now cut.now home.now) }
{
    match &cut.alias {
        Some(alias) => aliased(alloc, at, alias, &cut.path, home),
        None => {
            let path = from_file(alloc, &at.file.path, &cut.path)?;
            Ok(file_in(alloc, &at.file.repo, &at.file.git_ref, path)?)
        }
    }
}

/// Whether two keys are the same.
pub fn same_file(left: &FileKey, right: &FileKey) -> bool
    ensures { result ≡ same_file left.now right.now }
{
    left.repo.as_str() == right.repo.as_str()
        && left.git_ref.as_str() == right.git_ref.as_str()
        && left.path.as_str() == right.path.as_str()
}

/// Whether a file was called.
fn is_called(key: &FileKey, used: &List<FileKey>) -> bool
    ensures { result ≡ is_called key.now used.now }
{
    used.as_slice().iter().any(|one| same_file(key, one))
}

/// A file is called by then. X2 where too many are.
fn use_file(
    alloc: Global,
    at: &Place,
    key: &FileKey,
    used: &mut List<FileKey>,
) -> Result<(), ExpandFault>
    ensures { GivesUsed result used.new (called_then at.now key.now used.old) }
{
    if is_called(key, used) {
        return Ok(());
    }
    if MOST_FILES <= used.len() {
        let first = complain(alloc, ExpandProblem::TooManyFiles, at)?;
        return Err(ExpandFault::Refused(first));
    }
    used.push(key.copy(alloc)?)?;
    Ok(())
}

/// A file that was found is called by then.
fn open_found(
    alloc: Global,
    at: &Place,
    key: FileKey,
    file: Shared<Parsed>,
    used: &mut List<FileKey>,
) -> Result<Opened, ExpandFault>
    ensures { GivesUsed result used.new (found_at at.now key (Some file) used.old) }
{
    use_file(alloc, at, &key, used)?;
    let key = Shared::new(alloc, key)?;
    Ok(Opened { key, file })
}

/// X1 at a place.
fn missing(alloc: Global, at: &Place) -> Result<Opened, ExpandFault>
    ensures { Gives result (refused FileMissing at.now) }
{
    let first = complain(alloc, ExpandProblem::FileMissing, at)?;
    Err(ExpandFault::Refused(first))
}

/// The file of a key. X1 where there is none.
#[tactic(auto, using(crate::proofs::Alone::gives_alone))]
fn open_key<F: Files>(
    alloc: Global,
    at: &Place,
    key: FileKey,
    reach: &mut Reach<'_, F>,
) -> Result<Opened, ExpandFault>
    ensures opened { GivesUsed result reach.new.used.now (opened_at
        (F.files reach.old.files.now) at.now (Some key) reach.old.used.now) }
    ensures files { F.files reach.new.files.now ≡ F.files reach.old.files.now }
    ensures home { reach.new.home ≡ reach.old.home }
    ensures files_lent { reach.new.files.ghost_name ≡ reach.old.files.ghost_name }
    ensures used_lent { reach.new.used.ghost_name ≡ reach.old.used.ghost_name }
{
    match reach.files.node(alloc, &key)? {
        Some(file) => open_found(alloc, at, key, file, reach.used),
        None => missing(alloc, at),
    }
}

/// The file that a path leads to that an item at a place holds; it is called by then. X11 where no
/// repository has the path's alias, X1 where the path leads out of the root or no such file is
/// there, X2 where more than 100 files are called.
#[tactic(auto, using(crate::proofs::Alone::gives_alone))]
pub fn open<F: Files>(
    alloc: Global,
    at: &Place,
    path: &Text,
    reach: &mut Reach<'_, F>,
) -> Result<Opened, ExpandFault>
    ensures { GivesFrom F.files result reach.old reach.new (λ opens. opens at.now path.now) }
{
    let cut = cut_path(alloc, path)?;
    match target(alloc, at, &cut, reach.home)? {
        Some(key) => open_key(alloc, at, key, reach),
        None => missing(alloc, at),
    }
}
