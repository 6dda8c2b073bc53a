ghost use denote.Param.Send.{IsSend};
ghost use Rattle.pl_facts.specs.contracts.entry.Entry as an_entry;
ghost use Rattle.pl_open_runs.specs.contracts.indexed_journal.IndexedJournal as a_journal;

/// An entry of a history, and the journal of one, may go into another thread.
pub fn sending_laws()
    ensures entry { IsSend an_entry.the_row }
    ensures journal { IsSend a_journal.the_row }
{}
