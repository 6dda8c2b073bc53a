//! Stages that may be started as far as no other stands in their way, and stages that run.

ghost use Rattle.std.specs.Prelude.{◌↔◌, IfOk, IsTrue, List, ℕ};
ghost use Rattle.pl_due.specs.Asked.{IsAsked, facts_of, of_it};
ghost use Rattle.pl_due.specs.Contention as spec;
ghost use Rattle.pl_due.specs.Contention.{InRun};
ghost use Rattle.pl_facts.specs.declared.fact.Fact.{Fact};

use crate::checked::is_permitted;
use crate::judging::judgement;
use crate::nodes::{is_running, is_waiting, stage_says};
use crate::stage_at::StageAt;
use pl_base::Memory;
use pl_judgement::judgement_laws;
use std::alloc::Global;

/// Something that holds of stages.
pub trait Holding {
    ghost of: { Self → List Fact → ℕ → InRun };

    /// Whether it holds of a stage.
    fn holds(&self, alloc: Global, at: &StageAt<'_>) -> Result<bool, Memory>
        requires { IsAsked at.now }
        ensures { IfOk result (λ is. IsTrue is ↔
            of_it (of self.now (facts_of at.now) at.now.moment) at.now) };
}

/// Stages that may be started as far as no other stands in their way.
#[derive(Clone, Copy)]
pub(crate) struct Eligible;

impl Holding for Eligible {
    ghost of = { λ itself facts moment. spec.IsEligible facts moment };

    fn holds(&self, alloc: Global, at: &StageAt<'_>) -> Result<bool, Memory> {
        judgement_laws();
        if !is_waiting(at) {
            return Ok(false);
        }
        if !is_permitted(at.journal, at.queued, at.planned) {
            return Ok(false);
        }
        if !stage_says(alloc, at)? {
            return Ok(false);
        }
        Ok(judgement(alloc, at)?.passes())
    }
}

/// Stages that run: they hold what they use of exclusive resources.
#[derive(Clone, Copy)]
pub struct Running;

impl Holding for Running {
    ghost of = { λ itself facts moment. spec.Holds facts };

    fn holds(&self, _alloc: Global, at: &StageAt<'_>) -> Result<bool, Memory> {
        Ok(is_running(at.journal, at.run, at.stage))
    }
}
