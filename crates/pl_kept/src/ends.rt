//! What facts tell of how stages and jobs went, as it is written in their rows.

ghost use Rattle.std.specs.Prelude.{◌≡◌, IfSome};
ghost use Rattle.std.specs.Option.{option_copied, option_map};
ghost use Rattle.pl_fields.specs.Fields.{option};
ghost use Rattle.pl_fields.specs.Rules.{rule, IsKeptRule, IsShortRule};
ghost use Rattle.pl_kept.specs.Ends.{job_ended, job_taken, stage_ended};
ghost use Rattle.pl_kept.specs.Told.{job_end_told, stage_end_told, taking_told};

use pl_base::{List, Memory, Moment, Outcome, Shared, Text};
use pl_facts::{Event, Fact, Rule};
use pl_fields::Written;
use pl_short::Short;

/// The rule that ended a stage or a job, if one did.
#[derive(Clone, Copy)]
pub(crate) struct EndingRule<'r> {
    rule: &'r Option<Shared<Rule>>,
}

impl Written for EndingRule<'_> {
    ghost spelled = { λ told. option rule told.rule.now };

    ghost short = { λ told. IfSome told.rule.now IsShortRule };

    ghost fits = { λ told. IfSome told.rule.now IsKeptRule };

    fn size(&self) -> usize {
        match self.rule {
            Some(rule) => Written::size(&**rule).saturating_add(1),
            None => 1,
        }
    }

    fn put(&self, out: &mut Vec<u8>) -> Result<(), Memory> {
        match self.rule {
            Some(rule) => {
                out.push(1)?;
                Written::put(&**rule, out)
            }
            None => {
                out.push(0)?;
                Ok(())
            }
        }
    }
}

impl Short for EndingRule<'_> {
    fn is_short(&self) -> bool {
        match self.rule {
            Some(rule) => Short::is_short(&**rule),
            None => true,
        }
    }
}

/// When a stage ended, with which result, and by which rule.
#[derive(Clone, Copy)]
pub(crate) struct StageEnded<'f> {
    pub(crate) moment: Moment,
    pub(crate) outcome: Outcome,
    pub(crate) rule: EndingRule<'f>,
}

/// Which agent took a job, and when.
#[derive(Clone, Copy)]
pub(crate) struct JobTaken<'f> {
    pub(crate) agent: &'f Text,
    pub(crate) moment: Moment,
}

/// When a job ended, with which result, by which rule, what was reported, and its outputs.
#[derive(Clone, Copy)]
pub(crate) struct JobEnded<'f> {
    pub(crate) moment: Moment,
    pub(crate) outcome: Outcome,
    pub(crate) rule: EndingRule<'f>,
    pub(crate) reported: Option<Outcome>,
    pub(crate) outputs: &'f List<(Text, Text)>,
}

/// How a stage ended, if a fact tells it.
pub(crate) fn stage_end_of(fact: Option<&Fact>) -> Option<StageEnded<'_>>
    ensures { option_map stage_ended result ≡ stage_end_told (option_copied fact.entry) }
{
    let Some(fact) = fact else {
        return None;
    };
    match &fact.event {
        Event::StageEnded { outcome, rule, .. } => Some(StageEnded {
            moment: fact.moment,
            outcome: *outcome,
            rule: EndingRule { rule },
        }),
        _ => None,
    }
}

/// Who took a job, if a fact tells it.
pub(crate) fn taking_of(fact: Option<&Fact>) -> Option<JobTaken<'_>>
    ensures { option_map job_taken result ≡ taking_told (option_copied fact.entry) }
{
    let Some(fact) = fact else {
        return None;
    };
    match &fact.event {
        Event::JobTaken { agent, .. } => Some(JobTaken {
            agent,
            moment: fact.moment,
        }),
        _ => None,
    }
}

/// How a job ended, if a fact tells it.
pub(crate) fn job_end_of(fact: Option<&Fact>) -> Option<JobEnded<'_>>
    ensures { option_map job_ended result ≡ job_end_told (option_copied fact.entry) }
{
    let Some(fact) = fact else {
        return None;
    };
    match &fact.event {
        Event::JobEnded {
            outcome,
            reported,
            rule,
            outputs,
            ..
        } => Some(JobEnded {
            moment: fact.moment,
            outcome: *outcome,
            rule: EndingRule { rule },
            reported: *reported,
            outputs,
        }),
        _ => None,
    }
}
