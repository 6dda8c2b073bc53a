//! The command `compile`.

ghost use Rattle.std.specs.Prelude.{◌≡◌};
ghost use Rattle.pl_commands.specs.People.{line_of, told_of};
ghost use Rattle.pl_commands.specs.Run.{Compiles, compile_status};
ghost use Rattle.pl_outfit.specs.Outfit.{outside};

use pl_base::{Argument, List};
use pl_budgets::Budget;
use pl_offline::{Ending, compile_bundle};
use pl_outfit::{Outfit, Status};
use std::alloc::Global;

/// Compiles the bundle of the source onto the sink.
pub(crate) fn compile<O: Outfit>(
    alloc: Global,
    arguments: &List<Argument>,
    outfit: &mut O,
) -> Status
    ensures { Compiles arguments.now (outside O.In.Source O.Out.Sink (O.view outfit.old)) result
        (outside O.In.Source O.Out.Sink (O.view outfit.new)) }
{
    let ends = outfit.ends();
    let ending = compile_bundle(alloc, arguments, &mut ends.source, &mut ends.sink);
    tell_ending(outfit, ending);
    status_of_ending(ending)
}

// Tells people the budget that a compilation passed, where it passed one.
fn tell_ending<O: Outfit>(outfit: &mut O, ending: Ending)
    ensures { O.view outfit.new ≡ record (O.view outfit.old) {
      people = told_of ending (O.view outfit.old).people;
    } }
{
    if let Ending::Memory(Some(budget)) = ending {
        outfit.tell(line_of(budget));
    }
}

// What people are told of a budget that a compilation passed.
fn line_of(budget: Budget) -> &'static str
    ensures { result.now ≡ line_of budget }
{
    match budget {
        Budget::Bundle => "pipectl: no memory for the files of the bundle\n",
        Budget::Files => "pipectl: no memory for the bytes and nodes of all files\n",
        Budget::Repositories => "pipectl: no memory for the repositories of the root file\n",
        Budget::Parameters => "pipectl: no memory for the parameters that a file declares\n",
        Budget::Open => "pipectl: no memory for the nodes in one another, over all calls\n",
        Budget::Made => "pipectl: no memory for the texts and nodes that are made\n",
        Budget::Work => "pipectl: no memory for the work of the expansion\n",
        Budget::Copied => "pipectl: no memory for the copies for stages and legs\n",
        Budget::Plan => "pipectl: no memory for the text of the plan\n",
    }
}

// The status of a compilation, by how it ended.
fn status_of_ending(ending: Ending) -> Status
    ensures { result ≡ compile_status ending }
{
    match ending {
        Ending::Compiled => Status::Finished,
        Ending::Refused => Status::Refused,
        Ending::NotBundle => Status::NotWhole,
        Ending::ReadFault => Status::ReadFault,
        Ending::Spent => Status::Spent,
        Ending::WriteFault => Status::WriteFault,
        Ending::Memory(_) => Status::Memory,
    }
}
