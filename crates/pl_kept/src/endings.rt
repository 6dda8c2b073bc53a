//! How ends and takings are written.

ghost use Rattle.std.specs.Prelude.{◌≡◌};
ghost use Rattle.pl_keeper.specs.Parts.{job_end, stage_end, taking, IsJobEnd, IsShortJobEnd};
ghost use Rattle.pl_keeper.specs.Parts.{IsShortStageEnd, IsShortTaking, IsStageEnd, IsTaking};
ghost use Rattle.pl_kept.specs.Ends.{job_ended, job_taken, stage_ended};

use crate::ends::{JobEnded, JobTaken, StageEnded};
use pl_base::Memory;
use pl_fields::Written;
use pl_short::Short;

impl Written for StageEnded<'_> {
    ghost spelled = { λ told. stage_end (stage_ended told) };

    ghost short = { λ told. IsShortStageEnd (stage_ended told) };

    ghost fits = { λ told. IsStageEnd (stage_ended told) };

    fn size(&self) -> usize {
        (self.moment, (self.outcome, self.rule)).size()
    }

    fn put(&self, out: &mut Vec<u8>) -> Result<(), Memory> {
        (self.moment, (self.outcome, self.rule)).put(out)
    }
}

impl Short for StageEnded<'_> {
    fn is_short(&self) -> bool {
        self.rule.is_short()
    }
}

impl Written for JobTaken<'_> {
    ghost spelled = { λ told. taking (job_taken told) };

    ghost short = { λ told. IsShortTaking (job_taken told) };

    ghost fits = { λ told. IsTaking (job_taken told) };

    fn size(&self) -> usize {
        (self.agent, self.moment).size()
    }

    fn put(&self, out: &mut Vec<u8>) -> Result<(), Memory> {
        (self.agent, self.moment).put(out)
    }
}

impl Short for JobTaken<'_> {
    fn is_short(&self) -> bool {
        self.agent.is_short()
    }
}

impl Written for JobEnded<'_> {
    ghost spelled = { λ told. job_end (job_ended told) };

    ghost short = { λ told. IsShortJobEnd (job_ended told) };

    ghost fits = { λ told. IsJobEnd (job_ended told) };

    fn size(&self) -> usize {
        let told = (self.reported, self.outputs);
        (self.moment, (self.outcome, (self.rule, told))).size()
    }

    fn put(&self, out: &mut Vec<u8>) -> Result<(), Memory> {
        let told = (self.reported, self.outputs);
        (self.moment, (self.outcome, (self.rule, told))).put(out)
    }
}

impl Short for JobEnded<'_> {
    fn is_short(&self) -> bool {
        self.rule.is_short() && (self.reported, self.outputs).is_short()
    }
}
