//! The open runs in order, and the known ones among which they are looked for.

ghost use Rattle.std.specs.Prelude.{◌≡◌, ◌+◌, ◌<◌, ◌≤◌, ◌==◌, ◌∷◌, ◌++◌, [], All, filter, length, not};
ghost use Rattle.std.specs.Prelude.{take, IsOk, IsTrue, OnErr, OnOk, Some, None, vec_len, vec_capacity};
ghost use Rattle.std.specs.BTreeSet.{insert_key};
ghost use Rattle.std.specs.Ordering.{nat_cmp};
ghost use Rattle.pl_journal.specs.Runs.{number_told};
ghost use Rattle.pl_open_runs.specs.Index.{Ascends, HasFewStages, IsIndex, ended_told};
ghost use Rattle.pl_open_runs.specs.Open as spec;

use crate::openness::is_open;
use pl_base::Memory;
use pl_facts::{Event, Fact};
use pl_journal::{Journal, Numbers};

/// Puts a number in its place among ascending ones, unless it is there. After Memory they are as
/// before.
fn put_in(numbers: &mut Vec<u64>, number: u64) -> Result<(), Memory>
    requires { Ascends numbers.old.items }
    ensures ok { OnOk result (numbers.new.items ≡ insert_key nat_cmp numbers.old.items number) }
    ensures err { OnErr result (numbers.new.items ≡ numbers.old.items) }
    ensures len { vec_len numbers.new ≤ vec_len numbers.old + 1 }
    ensures room { vec_len numbers.old < vec_capacity numbers.old → IsOk result }
    ensures capacity { vec_capacity numbers.old ≤ vec_capacity numbers.new }
{
    if let Err(at) = numbers.binary_search(&number) {
        numbers.insert(at, number)?;
    }
    Ok(())
}

/// Puts a number in its place among ascending ones where there is room, unless it is there. It takes
/// no memory.
fn put_in_room(numbers: &mut Vec<u64>, number: u64)
    requires ascends { Ascends numbers.old.items }
    requires room { vec_len numbers.old < vec_capacity numbers.old }
    ensures items { numbers.new.items ≡ insert_key nat_cmp numbers.old.items number }
    ensures capacity { vec_capacity numbers.old ≤ vec_capacity numbers.new }
{
    match put_in(numbers, number) {
        Ok(()) => {}
        Err(Memory) => unreachable!(),
    }
}

/// Looks at all known runs, of which the open ones are. It takes no memory.
fn look_at_all(journal: &Journal, known: &[u64], runs: &mut Vec<u64>)
    requires few { All HasFewStages journal.now.facts }
    requires room { length known.now ≤ vec_capacity runs.old }
    ensures items { runs.new.items ≡ filter (λ run. spec.is_open run journal.now.facts) known.now }
    ensures room { vec_capacity runs.new ≡ vec_capacity runs.old }
{
    runs.clear();
    for run in known {
        if is_open(journal, *run) {
            runs.push_reserved(*run);
        }
    }
}

/// Takes a run out of the open ones.
fn take_out(runs: &mut Vec<u64>, run: u64)
    ensures items { runs.new.items ≡ filter (λ one. not (one == run)) runs.old.items }
    ensures room { vec_capacity runs.new ≡ vec_capacity runs.old }
{
    runs.retain(|one| *one != run);
}

/// Makes the known runs those that are open. It takes no memory.
fn forget(known: &mut Vec<u64>, runs: &[u64])
    requires { length runs.now ≤ vec_capacity known.old }
    ensures { known.new.items ≡ runs.now }
{
    known.clear();
    for run in runs {
        known.push_reserved(*run);
    }
}

/// The run that was queued.
fn run_queued(event: &Event) -> Option<u64>
    ensures { result ≡ number_told event.now }
{
    match event {
        Event::RunQueued(queued) => Some(queued.run),
        _ => None,
    }
}

/// The run of which a stage ended.
fn run_ended(event: &Event) -> Option<u64>
    ensures { result ≡ ended_told event.now }
{
    match event {
        Event::StageEnded { run, .. } => Some(*run),
        _ => None,
    }
}

/// Whether the places of a queued run's stages are numbers of 32 bits.
fn has_few_stages(fact: &Fact) -> bool
    ensures { IsTrue result → HasFewStages fact.now }
{
    match &fact.event {
        Event::RunQueued(queued) => queued.compiled.plan.stages.len() <= u32::MAX as usize,
        _ => true,
    }
}

/// Puts the fact that a run was queued behind the others, and looks whether that run is open now.
fn push_queued(
    journal: &mut Journal,
    known: &mut Vec<u64>,
    runs: &mut Vec<u64>,
    run: u64,
    fact: Fact,
) -> Result<(), Memory>
    requires index { IsIndex journal.old known.old.items runs.old.items }
    requires room { vec_len known.old ≤ vec_capacity runs.old }
    requires queued { number_told fact.event ≡ Some run }
    requires few { HasFewStages fact }
    ensures index { IsIndex journal.new known.new.items runs.new.items }
    ensures room { vec_len known.new ≤ vec_capacity runs.new }
    ensures ok { OnOk result (journal.new ≡
        record journal.old { facts = journal.old.facts ++ fact ∷ [] }) }
    ensures err { OnErr result (journal.new ≡ journal.old) }
{
    runs.reserve(known.len() + 1)?;
    put_in(known, run)?;
    journal.push(fact)?;
    if is_open(journal, run) {
        put_in_room(runs, run);
    } else {
        take_out(runs, run);
    }
    Ok(())
}

/// Puts the fact that a stage of a run ended behind the others. A run whose stages have all ended
/// isn't open any more.
fn push_ended(
    journal: &mut Journal,
    known: &[u64],
    runs: &mut Vec<u64>,
    run: u64,
    fact: Fact,
) -> Result<(), Memory>
    requires index { IsIndex journal.old known.now runs.old.items }
    requires ended { ended_told fact.event ≡ Some run }
    ensures index { IsIndex journal.new known.now runs.new.items }
    ensures room { vec_capacity runs.new ≡ vec_capacity runs.old }
    ensures ok { OnOk result (journal.new ≡
        record journal.old { facts = journal.old.facts ++ fact ∷ [] }) }
    ensures err { OnErr result (journal.new ≡ journal.old) }
{
    journal.push(fact)?;
    if !is_open(journal, run) {
        take_out(runs, run);
    }
    Ok(())
}

/// Puts a fact behind the others after which the same runs are open.
fn push_other(journal: &mut Journal, known: &[u64], runs: &[u64], fact: Fact) -> Result<(), Memory>
    requires index { IsIndex journal.old known.now runs.now }
    requires queued { number_told fact.event ≡ None }
    requires ended { ended_told fact.event ≡ None }
    ensures index { IsIndex journal.new known.now runs.now }
    ensures ok { OnOk result (journal.new ≡
        record journal.old { facts = journal.old.facts ++ fact ∷ [] }) }
    ensures err { OnErr result (journal.new ≡ journal.old) }
{
    journal.push(fact)
}

/// Puts a fact behind the others. After Memory the journal is as before.
pub(crate) fn push(
    journal: &mut Journal,
    known: &mut Vec<u64>,
    runs: &mut Vec<u64>,
    fact: Fact,
) -> Result<(), Memory>
    requires index { IsIndex journal.old known.old.items runs.old.items }
    requires room { vec_len known.old ≤ vec_capacity runs.old }
    ensures index { IsIndex journal.new known.new.items runs.new.items }
    ensures room { vec_len known.new ≤ vec_capacity runs.new }
    ensures ok { OnOk result (journal.new ≡
        record journal.old { facts = journal.old.facts ++ fact ∷ [] }) }
    ensures err { OnErr result (journal.new ≡ journal.old) }
{
    if !has_few_stages(&fact) {
        return Err(Memory);
    }
    if let Some(run) = run_queued(&fact.event) {
        return push_queued(journal, known, runs, run, fact);
    }
    if let Some(run) = run_ended(&fact.event) {
        return push_ended(journal, known, runs, run, fact);
    }
    push_other(journal, known, runs, fact)
}

/// Takes the facts away that aren't installed. It takes no memory.
pub(crate) fn back_to_installed(journal: &mut Journal, known: &[u64], runs: &mut Vec<u64>)
    requires index { IsIndex journal.old known.now runs.old.items }
    requires room { length known.now ≤ vec_capacity runs.old }
    ensures index { IsIndex journal.new known.now runs.new.items }
    ensures room { vec_capacity runs.new ≡ vec_capacity runs.old }
    ensures journal { journal.new ≡
        record journal.old { facts = take journal.old.installed journal.old.facts } }
{
    let before = journal.len();
    journal.back_to_installed();
    if journal.len() < before {
        look_at_all(journal, known, runs);
    }
}

/// Installs all facts, so that runs which aren't open needn't be known any more. It takes no
/// memory.
pub(crate) fn install(journal: &mut Journal, known: &mut Vec<u64>, runs: &[u64])
    requires index { IsIndex journal.old known.old.items runs.now }
    ensures index { IsIndex journal.new known.new.items runs.now }
    ensures len { vec_len known.new ≡ length runs.now }
    ensures journal { journal.new ≡ record journal.old { installed = length journal.old.facts } }
{
    journal.install();
    forget(known, runs);
}

/// Ends the opening, and installs all facts. It takes no memory.
pub(crate) fn begin(journal: &mut Journal, known: &mut Vec<u64>, runs: &[u64], numbers: Numbers)
    requires index { IsIndex journal.old known.old.items runs.now }
    ensures index { IsIndex journal.new known.new.items runs.now }
    ensures len { vec_len known.new ≡ length runs.now }
    ensures journal { journal.new ≡ record journal.old {
      opening = record {
        moment = numbers.moment;
        run = numbers.run;
        version = numbers.version;
        facts = length journal.old.facts;
      };
      installed = length journal.old.facts;
    } }
{
    journal.begin(numbers);
    forget(known, runs);
}
