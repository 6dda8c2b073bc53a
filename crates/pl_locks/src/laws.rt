ghost use Rattle.std.specs.Prelude.{◌≡◌, ◌≤◌, List, All, Contains};
ghost use Rattle.pl_base.specs.declared.outcome.Behaviour.TheVariants.{Sequential};
ghost use Rattle.pl_locks.specs.declared.contender.Contender.{Contender};
ghost use Rattle.pl_locks.specs.Locks.{IsAt, IsNext, IsSuperseded, Shares};

/// What holds of every list of eligible stages and every list of holders.
///
/// The next stage is one of the eligible ones, isn't superseded, uses no resource of a holder, and
/// is the only next one. A stage whose behaviour is sequential is never superseded, and neither is
/// one of the latest run.
pub fn lock_laws()
    ensures member { (eligible holders : List Contender) (stage : Contender) →
        IsNext eligible holders stage → Contains eligible stage }
    ensures stands { (eligible holders : List Contender) (stage : Contender) →
        IsNext eligible holders stage → ¬ IsSuperseded eligible stage }
    ensures unshared { (eligible holders : List Contender) (stage holder : Contender) →
        IsNext eligible holders stage → Contains holders holder → ¬ Shares stage holder }
    ensures one { (eligible holders : List Contender) (left right : Contender) →
        IsNext eligible holders left → IsNext eligible holders right →
        IsAt left.run left.position right }
    ensures sequential { (eligible : List Contender) (stage : Contender) →
        stage.behaviour ≡ Sequential → ¬ IsSuperseded eligible stage }
    ensures latest { (eligible : List Contender) (stage : Contender) →
        All (λ other. other.run ≤ stage.run) eligible → ¬ IsSuperseded eligible stage }
{}
