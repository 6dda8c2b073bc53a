//! Stages that gave way to later runs.

ghost use Rattle.std.specs.Prelude.{◌≡◌, ◌≤◌, cond, IfOk};
ghost use Rattle.pl_alone.specs.Below.pl_history.specs.History.{facts_of};
ghost use Rattle.pl_rehearsal.specs.Summary.{ends_superseded, is_lock_superseded, superseded_among};

use pl_base::{Memory, Shared};
use pl_facts::{Entry, Event, Fact};
use pl_rules::Rule;

fn is_lock_superseded(rule: &Option<Shared<Rule>>) -> bool
    ensures { result ≡ is_lock_superseded rule.now }
{
    match rule {
        Some(rule) => match &**rule {
            Rule::LockSuperseded { .. } => true,
            _ => false,
        },
        None => false,
    }
}

fn ends_superseded(event: &Event) -> bool
    ensures { result ≡ ends_superseded event.now }
{
    match event {
        Event::StageEnded { rule, .. } => is_lock_superseded(rule),
        _ => false,
    }
}

/// How many of these facts are ends of stages that gave way.
fn superseded_among(facts: &[Fact]) -> usize
    ensures { result ≡ superseded_among facts.now }
{
    let mut count = 0;
    for fact in facts {
        count += weight(&fact.event);
    }
    count
}

/// 1 for such an end, and 0 for anything else.
fn weight(event: &Event) -> usize
    ensures is { result ≡ cond (ends_superseded event.now) 1 0 }
    ensures most { result ≤ 1 }
{
    if ends_superseded(event) { 1 } else { 0 }
}

/// How many facts of these entries are such ends. Memory where they are too many to be counted.
pub(crate) fn superseded_in(entries: &[Entry]) -> Result<u64, Memory>
    ensures { IfOk result (λ count. count ≡ superseded_among (facts_of entries.now)) }
{
    let mut count = 0_u64;
    for entry in entries {
        let more = superseded_among(entry.facts.as_slice());
        match count.checked_add(more as u64) {
            Some(sum) => count = sum,
            None => return Err(Memory),
        }
    }
    Ok(count)
}
