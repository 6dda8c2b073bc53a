ghost use Rattle.std.specs.Prelude.{◌≡◌};
ghost use Rattle.pl_keeper.specs.Parts.{IsJobEnd, IsShortJobEnd, IsShortKeptFile, IsShortStageEnd};
ghost use Rattle.pl_keeper.specs.Parts.{IsShortTaking, IsStageEnd, IsTaking, IsKeptFile, job_end};
ghost use Rattle.pl_keeper.specs.Parts.{kept_file, stage_end, taking};
ghost use Rattle.pl_keeper.specs.WaysOfParts.{job_end_one_way, kept_file_one_way};
ghost use Rattle.pl_keeper.specs.WaysOfParts.{stage_end_one_way, taking_one_way};

use crate::records::{JobEnd, KeptFile, StageEnd, Taking};
use pl_base::{FileKey, List, Memory, Moment, Outcome, Text};
use pl_fields::{DecodeFault, Field, Raw, RawSlice, Written};
use pl_rules::Rule;
use std::alloc::Global;

impl Written for KeptFile {
    ghost spelled = { kept_file };

    ghost short = { IsShortKeptFile };

    ghost fits = { IsKeptFile };

    fn size(&self) -> usize {
        let bytes = self.text.as_slice();
        (&self.key, RawSlice { bytes }).size()
    }

    fn put(&self, out: &mut Vec<u8>) -> Result<(), Memory> {
        let bytes = self.text.as_slice();
        (&self.key, RawSlice { bytes }).put(out)
    }
}

impl Field for KeptFile {
    fn read(alloc: Global, bytes: &[u8]) -> Result<(KeptFile, &[u8]), DecodeFault> {
        let ((key, text), rest) = <(FileKey, Raw)>::read(alloc, bytes)?;
        let file = KeptFile {
            key,
            text: text.bytes,
        };
        Ok((file, rest))
    }

    ghost one_way = { kept_file_one_way };
}

impl Written for StageEnd {
    ghost spelled = { stage_end };

    ghost short = { IsShortStageEnd };

    ghost fits = { IsStageEnd };

    fn size(&self) -> usize {
        (self.moment, (self.outcome, &self.rule)).size()
    }

    fn put(&self, out: &mut Vec<u8>) -> Result<(), Memory> {
        (self.moment, (self.outcome, &self.rule)).put(out)
    }
}

impl Field for StageEnd {
    fn read(alloc: Global, bytes: &[u8]) -> Result<(StageEnd, &[u8]), DecodeFault> {
        let ((moment, (outcome, rule)), rest) = <(Moment, (Outcome, Option<Rule>))>::read(
            alloc, bytes,
        )?;
        let end = StageEnd {
            moment,
            outcome,
            rule,
        };
        Ok((end, rest))
    }

    ghost one_way = { stage_end_one_way };
}

impl Written for Taking {
    ghost spelled = { taking };

    ghost short = { IsShortTaking };

    ghost fits = { IsTaking };

    fn size(&self) -> usize {
        (&self.agent, self.moment).size()
    }

    fn put(&self, out: &mut Vec<u8>) -> Result<(), Memory> {
        (&self.agent, self.moment).put(out)
    }
}

impl Field for Taking {
    fn read(alloc: Global, bytes: &[u8]) -> Result<(Taking, &[u8]), DecodeFault> {
        let ((agent, moment), rest) = <(Text, Moment)>::read(alloc, bytes)?;
        Ok((Taking { agent, moment }, rest))
    }

    ghost one_way = { taking_one_way };
}

/// The fields of a job's end, in order.
type JobEndFields = (
    Moment,
    (
        Outcome,
        (Option<Rule>, (Option<Outcome>, List<(Text, Text)>)),
    ),
);

impl Written for JobEnd {
    ghost spelled = { job_end };

    ghost short = { IsShortJobEnd };

    ghost fits = { IsJobEnd };

    fn size(&self) -> usize {
        let told = (self.reported, &self.outputs);
        (self.moment, (self.outcome, (&self.rule, told))).size()
    }

    fn put(&self, out: &mut Vec<u8>) -> Result<(), Memory> {
        let told = (self.reported, &self.outputs);
        (self.moment, (self.outcome, (&self.rule, told))).put(out)
    }
}

impl Field for JobEnd {
    fn read(alloc: Global, bytes: &[u8]) -> Result<(JobEnd, &[u8]), DecodeFault> {
        let ((moment, (outcome, (rule, (reported, outputs)))), rest) = JobEndFields::read(
            alloc, bytes,
        )?;
        let end = JobEnd {
            moment,
            outcome,
            rule,
            reported,
            outputs,
        };
        Ok((end, rest))
    }

    ghost one_way = { job_end_one_way };
}
