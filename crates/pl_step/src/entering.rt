//! The facts of a call: what is due first, what happens by it, and that all of them are one entry.

ghost use Rattle.std.specs.Prelude.{◌≡◌, ◌≤◌, ◌+◌, nat_lt, [], List as list, IfOk, OnErr, OnOk, drop};
ghost use Rattle.std.specs.Prelude.{length, if◌then◌else◌};
ghost use Rattle.pl_decisions.specs.Below.pl_due.specs.Fit.{AreFit, last_moment};
ghost use Rattle.pl_facts.specs.declared.fact.Fact.{Fact as Told};
ghost use Rattle.pl_step.specs.Fits.{CanHappen};
ghost use Rattle.pl_journal.specs.Log.{Log};
ghost use Rattle.pl_row_changes.specs.Changing.{AreOfEntry};
ghost use Rattle.pl_row_changes.specs.Counting.{row_changes};
ghost use Rattle.pl_rules.specs.declared.rule.Rule.TheVariants as rules;
ghost use Rattle.pl_step.specs.Full.{back, last_number, with_facts};
ghost use Rattle.pl_step.specs.Step.{SettlesFor, given, happened, refusing, stepped_with};

use crate::full::{is_large, is_long};
use crate::held::Held;
use crate::stepped::{Entered, Stepped};
use pl_base::{ExactCopy, List, Memory, Moment};
use pl_facts::{Event, Fact};
use pl_jobs::settle;
use pl_journal::Journal;
use pl_open_runs::IndexedJournal;
use pl_requests::{Reply, Request, Rule};
use pl_row_changes::changes_of;
use std::alloc::Global;

/// Puts what is due behind the other facts; for a shutdown nothing.
pub(crate) fn settle_for(
    alloc: Global,
    journal: &mut IndexedJournal,
    request: &Request,
    moment: Moment,
) -> Result<(), Memory>
    requires moment { moment ≤ last_moment }
    requires fit { AreFit journal.old.facts }
    ensures ok { OnOk result ((due : list Told)
        × SettlesFor request.now moment journal.old.facts due
        × (journal.new ≡ with_facts journal.old due)) }
    ensures err { OnErr result ((due : list Told) × (journal.new ≡ with_facts journal.old due)) }
    ensures fit { AreFit journal.new.facts }
{
    match request {
        Request::Shutdown => Ok(()),
        _ => settle(alloc, journal, moment),
    }
}

/// Puts what happens by a request behind the other facts.
pub(crate) fn push_event(
    journal: &mut IndexedJournal,
    moment: Moment,
    event: Option<Event>,
) -> Result<(), Memory>
    requires moment { moment ≤ last_moment }
    requires fit { AreFit journal.old.facts }
    requires can_run { CanHappen event }
    ensures ok { OnOk result (journal.new ≡ with_facts journal.old (happened moment event)) }
    ensures err { OnErr result (journal.new ≡ journal.old) }
    ensures fit { AreFit journal.new.facts }
{
    match event {
        Some(event) => journal.push(Fact { moment, event }),
        None => Ok(()),
    }
}

/// The facts of a journal from a place on.
fn facts_from(alloc: Global, journal: &Journal, from: usize) -> Result<List<Fact>, Memory>
    ensures { IfOk result (λ facts. facts ≡ drop from journal.now.facts) }
{
    let mut facts = List::new(alloc);
    for at in from..journal.len() {
        match journal.fact(at) {
            Some(fact) => facts.push(fact.copy(alloc)?)?,
            None => {}
        }
    }
    Ok(facts)
}

/// 409 `journal.full`: the facts that aren't installed are taken away. After Memory the journal is
/// as before.
fn refuse(alloc: Global, journal: &mut IndexedJournal, change: u64) -> Result<Entered, Memory>
    requires fit { AreFit journal.old.facts }
    ensures stepped { IfOk result (λ entered. entered.stepped ≡ refusing 409 rules.JournalFull) }
    ensures rows { IfOk result (λ entered. (log : Log) →
        AreOfEntry change entered.rows.next log [] entered.rows.changes) }
    ensures ok { OnOk result (journal.new ≡ back journal.old) }
    ensures err { OnErr result (journal.new ≡ journal.old) }
    ensures fit { AreFit journal.new.facts }
{
    let full = Stepped::refusing(alloc, 409, &Rule::JournalFull)?;
    journal.back_to_installed();
    Ok(full.alone(alloc, change))
}

/// The reply with these facts, which aren't installed, and what they change among the kept rows,
/// unless the number of the next change has more than 18 digits: then they are taken away.
fn change_rows(
    alloc: Global,
    journal: &mut IndexedJournal,
    change: u64,
    reply: Reply,
    added: List<Fact>,
) -> Result<Entered, Memory>
    requires within { journal.old.installed ≤ length journal.old.facts }
    requires added { drop journal.old.installed journal.old.facts ≡ added }
    requires fit { AreFit journal.old.facts }
    ensures stepped { IfOk result (λ entered. entered.stepped ≡
        (if nat_lt last_number (change + row_changes (back journal.old).facts added)
        then refusing 409 rules.JournalFull else stepped_with reply added)) }
    ensures rows { IfOk result (λ entered. AreOfEntry change entered.rows.next
        (back journal.old) entered.stepped.added entered.rows.changes) }
    ensures ok { IfOk result (λ entered.
        journal.new ≡ with_facts (back journal.old) entered.stepped.added) }
    ensures err { OnErr result ((more : list Told) ×
        (journal.new ≡ with_facts (back journal.old) more)) }
    ensures fit { AreFit journal.new.facts }
{
    let rows = changes_of(alloc, journal, added.as_slice(), change)?;
    if is_long(rows.next) {
        return refuse(alloc, journal, change);
    }
    Ok(Entered {
        stepped: Stepped { reply, added },
        rows,
    })
}

/// The same of some facts, or of none, which change nothing; they are too much also where they are
/// as `is_large` tells.
fn enter_facts(
    alloc: Global,
    journal: &mut IndexedJournal,
    held: &Held,
    request: &Request,
    reply: Reply,
    added: List<Fact>,
) -> Result<Entered, Memory>
    requires within { journal.old.installed ≤ length journal.old.facts }
    requires added { drop journal.old.installed journal.old.facts ≡ added }
    requires fit { AreFit journal.old.facts }
    ensures stepped { IfOk result (λ entered. entered.stepped ≡
        given held.now (back journal.old) request.now (stepped_with reply added)) }
    ensures rows { IfOk result (λ entered. AreOfEntry held.now.change entered.rows.next
        (back journal.old) entered.stepped.added entered.rows.changes) }
    ensures ok { IfOk result (λ entered.
        journal.new ≡ with_facts (back journal.old) entered.stepped.added) }
    ensures err { OnErr result ((more : list Told) ×
        (journal.new ≡ with_facts (back journal.old) more)) }
    ensures fit { AreFit journal.new.facts }
{
    if added.is_empty() {
        return Ok(Stepped { reply, added }.alone(alloc, held.change));
    }
    if is_large(held, journal.journal(), request, added.as_slice()) {
        return refuse(alloc, journal, held.change);
    }
    change_rows(alloc, journal, held.change, reply, added)
}

/// The reply with the facts that aren't installed, and what they change among the kept rows, unless
/// they are too much: then they are taken away. They are those from a place on. After Memory some
/// of them may be there.
pub(crate) fn enter(
    alloc: Global,
    journal: &mut IndexedJournal,
    held: &Held,
    request: &Request,
    reply: Reply,
    from: usize,
) -> Result<Entered, Memory>
    requires installed { from ≡ journal.old.installed }
    requires within { from ≤ length journal.old.facts }
    requires fit { AreFit journal.old.facts }
    ensures ok { IfOk result (λ entered. (entered.stepped ≡ given held.now (back journal.old)
        request.now (stepped_with reply (drop from journal.old.facts)))
        × (journal.new ≡ with_facts (back journal.old) entered.stepped.added)) }
    ensures rows { IfOk result (λ entered. AreOfEntry held.now.change entered.rows.next
        (back journal.old) entered.stepped.added entered.rows.changes) }
    ensures err { OnErr result ((more : list Told) ×
        (journal.new ≡ with_facts (back journal.old) more)) }
    ensures fit { AreFit journal.new.facts }
{
    let added = facts_from(alloc, journal.journal(), from)?;
    enter_facts(alloc, journal, held, request, reply, added)
}
