//! Stages that come to the lists, and stages that are taken out of them, with their queues.

ghost use Rattle.std.specs.Prelude.{◌≡◌, ◌+◌, ◌<◌, ◌≤◌, ◌^◌, [], true, Any, Contains, List, OnErr};
ghost use Rattle.std.specs.Prelude.{OnOk, is_some, length, slice_index_or, vec_len};
ghost use Rattle.std.specs.Vec.{vec_capacity};
ghost use Rattle.std.specs.BTreeMap.{get};
ghost use Rattle.std.specs.List.{list_any};
ghost use Rattle.pl_base.specs.declared.resource.ResourceKey.{ResourceKey as Key};
ghost use Rattle.pl_lock_queues.specs.Queues.{AreMarked, AreNamed, AreWaiting, IsOrdered, key_cmp};
ghost use Rattle.pl_lock_queues.specs.Queues.{wants};
ghost use Rattle.pl_locks.specs.Kept.{IsAbsent, IsPutIn, without};
ghost use Rattle.pl_locks.specs.Locks.{IsAt};
ghost use Rattle.pl_locks.specs.declared.contender.Contender.{Contender as Stage};

use crate::admitting::{admit, dismiss};
use crate::marks::{Marks, hold_all, make_marks, mark_anew};
use crate::naming::{Names, drop_name, name_of, put_name, take_name};
use crate::ordering::put_in;
use crate::places::{Place, find};
use pl_base::{Memory, ResourceKey};
use pl_lines::Lines;
use pl_locks::Contender;
use std::alloc::Global;
use std::collections::{BTreeMap, BTreeSet};

/// Which stages wait for which resource, in order; which resources are held; which stages want
/// none, and which give way; and by name those of which only the latest is to run.
#[derive(Drop)]
pub(crate) struct Queues {
    pub(crate) lines: Lines<ResourceKey, Place>,
    pub(crate) marks: Marks,
    pub(crate) free: BTreeSet<Place>,
    pub(crate) superseded: BTreeSet<Place>,
    pub(crate) names: Names,
}

/// Empty queues. It takes no memory.
pub(crate) fn none(alloc: Global) -> Queues
    ensures waiting { AreWaiting [] result.lines.lines result.free result.superseded }
    ensures names { AreNamed [] result.names.lines }
    ensures marks { AreMarked [] [] result.marks }
{
    Queues {
        lines: Lines::new(alloc),
        marks: BTreeMap::new(alloc),
        free: BTreeSet::new(alloc),
        superseded: BTreeSet::new(alloc),
        names: Lines::new(alloc),
    }
}

/// Puts a stage, which isn't yet among the eligible ones, into their queues. After Memory the
/// queues are as before.
fn admit_named(
    alloc: Global,
    eligible: &[Contender],
    queues: &mut Queues,
    stage: &Contender,
) -> Result<(), Memory>
    requires ordered { IsOrdered eligible.now }
    requires absent { IsAbsent stage.now.run stage.now.position eligible.now }
    requires waiting { AreWaiting eligible.now queues.old.lines.lines queues.old.free
        queues.old.superseded }
    requires names { AreNamed eligible.now queues.old.names.lines }
    ensures waiting { OnOk result ((more : List Stage) → IsPutIn stage.now eligible.now more →
        AreWaiting more queues.new.lines.lines queues.new.free queues.new.superseded) }
    ensures names { OnOk result ((more : List Stage) → IsPutIn stage.now eligible.now more →
        AreNamed more queues.new.names.lines) }
    ensures waiting_err { OnErr result (AreWaiting eligible.now queues.new.lines.lines
        queues.new.free queues.new.superseded) }
    ensures names_err { OnErr result (AreNamed eligible.now queues.new.names.lines) }
    ensures marks { queues.new.marks ≡ queues.old.marks }
{
    let name = name_of(alloc, stage)?;
    put_name(alloc, &mut queues.names, &name, stage)?;
    match admit(
        alloc,
        eligible,
        &mut queues.lines,
        &mut queues.free,
        &mut queues.superseded,
        queues.names.line(&name),
        stage,
    ) {
        Ok(()) => Ok(()),
        Err(Memory) => {
            drop_name(&mut queues.names, &name, stage);
            Err(Memory)
        }
    }
}

/// Puts a stage among the eligible ones, among which it isn't. After Memory they are as before.
pub(crate) fn enter(
    alloc: Global,
    eligible: &mut Vec<Contender>,
    queues: &mut Queues,
    stage: Contender,
) -> Result<(), Memory>
    requires ordered { IsOrdered eligible.old.items }
    requires absent { IsAbsent stage.run stage.position eligible.old.items }
    requires waiting { AreWaiting eligible.old.items queues.old.lines.lines queues.old.free
        queues.old.superseded }
    requires names { AreNamed eligible.old.items queues.old.names.lines }
    ensures ok { OnOk result (IsPutIn stage eligible.old.items eligible.new.items) }
    ensures len { OnOk result (vec_len eligible.new ≡ vec_len eligible.old + 1) }
    ensures err { OnErr result (eligible.new.items ≡ eligible.old.items) }
    ensures len_err { OnErr result (vec_len eligible.new ≡ vec_len eligible.old) }
    ensures ordered { IsOrdered eligible.new.items }
    ensures waiting { AreWaiting eligible.new.items queues.new.lines.lines queues.new.free
        queues.new.superseded }
    ensures names { AreNamed eligible.new.items queues.new.names.lines }
    ensures marks { (holders : List Stage) → AreMarked eligible.old.items holders queues.old.marks →
        AreMarked eligible.new.items holders queues.new.marks }
{
    eligible.reserve(1)?;
    make_marks(alloc, &mut queues.marks, stage.resources.as_slice())?;
    admit_named(alloc, eligible, queues, &stage)?;
    put_in(eligible, stage);
    Ok(())
}

/// Puts a stage among the holders, among which it isn't, so that there is room for so many more.
/// After Memory they are as before.
pub(crate) fn join(
    alloc: Global,
    holders: &mut Vec<Contender>,
    room: usize,
    marks: &mut Marks,
    stage: Contender,
) -> Result<(), Memory>
    requires ordered { IsOrdered holders.old.items }
    requires absent { IsAbsent stage.run stage.position holders.old.items }
    requires few { room < 2 ^ 63 }
    ensures ok { OnOk result (IsPutIn stage holders.old.items holders.new.items) }
    ensures room { OnOk result (room + vec_len holders.new ≤ vec_capacity holders.new) }
    ensures err { OnErr result (holders.new.items ≡ holders.old.items) }
    ensures len_err { OnErr result (vec_len holders.new ≡ vec_len holders.old) }
    ensures capacity { vec_capacity holders.old ≤ vec_capacity holders.new }
    ensures ordered { IsOrdered holders.new.items }
    ensures marks { (eligible : List Stage) → AreMarked eligible holders.old.items marks.old →
        AreMarked eligible holders.new.items marks.new }
{
    holders.reserve(room + 1)?;
    make_marks(alloc, marks, stage.resources.as_slice())?;
    hold_all(marks, stage.resources.as_slice());
    put_in(holders, stage);
    Ok(())
}

/// Takes the stage at a place in the list out of the eligible ones. It takes no memory.
fn take_at(eligible: &mut Vec<Contender>, queues: &mut Queues, at: usize) -> Contender
    requires ordered { IsOrdered eligible.old.items }
    requires within { at < length eligible.old.items }
    requires waiting { AreWaiting eligible.old.items queues.old.lines.lines queues.old.free
        queues.old.superseded }
    requires names { AreNamed eligible.old.items queues.old.names.lines }
    ensures stage { result ≡ slice_index_or eligible.old.items at result }
    ensures eligible { eligible.new.items ≡ without result.run result.position eligible.old.items }
    ensures len { vec_len eligible.new + 1 ≡ vec_len eligible.old }
    ensures ordered { IsOrdered eligible.new.items }
    ensures waiting { AreWaiting eligible.new.items queues.new.lines.lines queues.new.free
        queues.new.superseded }
    ensures names { AreNamed eligible.new.items queues.new.names.lines }
    ensures marks { queues.new.marks ≡ queues.old.marks }
{
    let stage = eligible.remove(at);
    dismiss(
        eligible,
        &mut queues.lines,
        &mut queues.free,
        &mut queues.superseded,
        &stage,
    );
    take_name(&mut queues.names, stage)
}

/// Takes a stage from the eligible ones, where it is among them. It takes no memory.
pub(crate) fn leave(eligible: &mut Vec<Contender>, queues: &mut Queues, run: u64, position: u32)
    requires ordered { IsOrdered eligible.old.items }
    requires waiting { AreWaiting eligible.old.items queues.old.lines.lines queues.old.free
        queues.old.superseded }
    requires names { AreNamed eligible.old.items queues.old.names.lines }
    ensures eligible { eligible.new.items ≡ without run position eligible.old.items }
    ensures len { vec_len eligible.new ≤ vec_len eligible.old }
    ensures ordered { IsOrdered eligible.new.items }
    ensures waiting { AreWaiting eligible.new.items queues.new.lines.lines queues.new.free
        queues.new.superseded }
    ensures names { AreNamed eligible.new.items queues.new.names.lines }
    ensures marks { (holders : List Stage) → AreMarked eligible.old.items holders queues.old.marks →
        AreMarked eligible.new.items holders queues.new.marks }
{
    if let Some(at) = find(eligible, run, position) {
        take_at(eligible, queues, at);
    }
}

/// Moves a stage from the eligible ones to the holders, among which there is room for each of them.
/// It takes no memory.
pub(crate) fn hold(
    eligible: &mut Vec<Contender>,
    holders: &mut Vec<Contender>,
    queues: &mut Queues,
    run: u64,
    position: u32,
)
    requires ordered { IsOrdered eligible.old.items }
    requires holders_ordered { IsOrdered holders.old.items }
    requires present { Any (IsAt run position) eligible.old.items }
    requires absent { IsAbsent run position holders.old.items }
    requires room { vec_len eligible.old + vec_len holders.old ≤ vec_capacity holders.old }
    requires waiting { AreWaiting eligible.old.items queues.old.lines.lines queues.old.free
        queues.old.superseded }
    requires names { AreNamed eligible.old.items queues.old.names.lines }
    requires marks { AreMarked eligible.old.items holders.old.items queues.old.marks }
    ensures eligible { eligible.new.items ≡ without run position eligible.old.items }
    ensures holders { (stage : Stage) → Contains eligible.old.items stage →
        IsAt run position stage → IsPutIn stage holders.old.items holders.new.items }
    ensures ordered { IsOrdered eligible.new.items }
    ensures holders_ordered { IsOrdered holders.new.items }
    ensures room { vec_len eligible.new + vec_len holders.new ≤ vec_capacity holders.new }
    ensures waiting { AreWaiting eligible.new.items queues.new.lines.lines queues.new.free
        queues.new.superseded }
    ensures names { AreNamed eligible.new.items queues.new.names.lines }
    ensures marks { AreMarked eligible.new.items holders.new.items queues.new.marks }
{
    match find(eligible, run, position) {
        Some(at) => {
            let stage = take_at(eligible, queues, at);
            hold_all(&mut queues.marks, stage.resources.as_slice());
            put_in(holders, stage);
        }
        None => unreachable!(),
    }
}

/// Takes a stage from the holders, where it is among them. It takes no memory.
pub(crate) fn release(holders: &mut Vec<Contender>, marks: &mut Marks, run: u64, position: u32)
    requires ordered { IsOrdered holders.old.items }
    requires owned { (key : Key) → list_any (wants key) holders.old.items ≡ true →
        is_some (get key_cmp marks.old key) ≡ true }
    ensures holders { holders.new.items ≡ without run position holders.old.items }
    ensures len { vec_len holders.new ≤ vec_len holders.old }
    ensures capacity { vec_capacity holders.new ≡ vec_capacity holders.old }
    ensures ordered { IsOrdered holders.new.items }
    ensures marks { (eligible : List Stage) → AreMarked eligible holders.old.items marks.old →
        AreMarked eligible holders.new.items marks.new }
{
    if let Some(at) = find(holders, run, position) {
        let stage = holders.remove(at);
        mark_anew(marks, stage.resources.as_slice(), holders);
    }
}
