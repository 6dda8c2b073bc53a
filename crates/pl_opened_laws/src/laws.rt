ghost use Rattle.pl_opened_laws.specs.Laws.{FactsFit, MomentFits, RowsStay};

use pl_compilation::compilations_can_run;
use pl_seeing::seeing_laws;

/// The laws of rows in order of which none is torn. Their facts fit into a journal: their moments,
/// and that of the last entry, are such as a clock tells, and the plans of their runs can run. The
/// rows of a service that was
/// just opened with their facts and their numbers are these very rows, and all that is kept of it
/// can be read again.
pub fn opened_laws()
    ensures fit { FactsFit }
    ensures moment { MomentFits }
    ensures rows { RowsStay }
{
    compilations_can_run();
    seeing_laws();
}
