ghost use Rattle.std.specs.Prelude.{◌≡◌, ◌++◌, [], Result as Answer, codes, IfOk};
ghost use Rattle.std.specs.Option.{option_copied};
ghost use Rattle.pl_base.specs.Places.{place_at};
ghost use Rattle.pl_base.specs.declared.node.Node.{Node as Tree};
ghost use Rattle.pl_base.specs.declared.place.Place.{Place as Where};
ghost use Rattle.pl_line.specs.declared.code.YamlCode.{YamlCode as Code};
ghost use Rattle.pl_yaml.specs.Answers.{Answers};
ghost use Rattle.pl_yaml.specs.Spells as yaml;
ghost use Rattle.pl_directives.specs.Gives.{Gives};
ghost use Rattle.pl_root.specs.Arguments.{argument_file, whole_text};
ghost use Rattle.pl_root.specs.Arguments.{read_told, argument_value, kind_for, argument_given};
ghost use Rattle.pl_root.specs.Arguments.{arguments_given, bound_by, parameters_by, is_text};

use pl_base::{
    Argument, ExactCopy, FileKey, List, MarkedNode, Memory, Node, Origin, Place, Shared,
    SharedList, Text, Value,
};
use pl_budgets::Meter;
use pl_calls::{bound_to, declared_by};
use pl_directives::{Complaint, ExpandFault, ExpandProblem};
use pl_frame::{Parameter, parameters_of};
use pl_literal::{literal, spells};
use pl_params::{Bound, Declared, Given, ParamKind};
use pl_yaml::{YamlFault, read};
use std::alloc::Global;

/// The path of the file in which a run argument stands.
fn argument_path(alloc: Global, name: &Text) -> Result<Text, Memory>
    ensures { IfOk result (λ path. path ≡ codes "/arguments/" ++ name.now) }
{
    let mut path = Text::from_str(alloc, "/arguments/")?;
    path.push_str(name.as_str())?;
    Ok(path)
}

/// The file in which a run argument stands.
fn argument_file(alloc: Global, name: &Text) -> Result<FileKey, Memory>
    ensures { IfOk result (λ file. file ≡ argument_file name.now) }
{
    let path = argument_path(alloc, name)?;
    Ok(FileKey {
        repo: Text::new(alloc),
        git_ref: Text::new(alloc),
        path,
    })
}

/// Where a run argument begins.
fn argument_place(alloc: Global, argument: &Argument) -> Result<Place, Memory>
    ensures { IfOk result (λ place. place ≡ place_at (argument_file argument.now.name) 1 1) }
{
    let file = Shared::new(alloc, argument_file(alloc, &argument.name)?)?;
    Ok(Place {
        file,
        line: 1,
        col: 1,
    })
}

/// A run argument's whole text.
fn whole_text(alloc: Global, argument: &Argument) -> Result<MarkedNode, Memory>
    ensures { IfOk result (λ value. value ≡ whole_text argument.now) }
{
    let value = Value::Str(argument.text.copy(alloc)?);
    let source = argument_place(alloc, argument)?;
    let crossings = SharedList::new(alloc)?;
    let origin = Origin { source, crossings };
    Ok(MarkedNode { origin, value })
}

/// What a run argument's text spells, or what is wrong with it.
fn read_told(alloc: Global, found: Result<Node, YamlFault>) -> Result<MarkedNode, ExpandFault>
    ensures { (spelled : Answer Tree (Code × Where)) → Answers found spelled → Gives result
        (read_told spelled) }
{
    match found {
        Ok(node) => {
            let none = SharedList::new(alloc)?;
            Ok(literal(alloc, &node, &none)?)
        }
        Err(YamlFault::Refused(code, place)) => {
            let problem = ExpandProblem::BadFile(code);
            Err(ExpandFault::Refused(Complaint { problem, place }))
        }
        Err(YamlFault::Memory) => Err(ExpandFault::Memory),
    }
}

/// A text, read as YAML.
fn read_in(alloc: Global, file: &FileKey, text: &Text) -> Result<MarkedNode, ExpandFault>
    ensures { Gives result (read_told (yaml.spells file.now text.now)) }
{
    let found = read(alloc, text.as_bytes(), file);
    read_told(alloc, found)
}

/// A run argument, read as YAML. X16 where its text isn't in the profile.
fn read_text(alloc: Global, argument: &Argument) -> Result<MarkedNode, ExpandFault>
    ensures { Gives result (read_told (yaml.spells (argument_file argument.now.name)
        argument.now.text)) }
{
    let file = argument_file(alloc, &argument.name)?;
    read_in(alloc, &file, &argument.text)
}

/// The type of the parameter of a name.
#[tactic(auto, using(pl_base::proofs::Finding::find_drop_yes, pl_base::proofs::Finding::find_drop_no))]
fn kind_for(declared: &Declared, name: &Text) -> Option<ParamKind>
    ensures { result ≡ kind_for declared.now name.now }
{
    for param in declared.as_slice() {
        if spells(name.as_str(), param.name.as_str()) {
            return Some(param.kind);
        }
    }
    None
}

/// Whether a parameter of that type takes the whole text.
fn is_text(kind: ParamKind) -> bool
    ensures { result ≡ is_text kind }
{
    match kind {
        ParamKind::String => true,
        ParamKind::Number
        | ParamKind::Boolean
        | ParamKind::Object
        | ParamKind::Step
        | ParamKind::StepList
        | ParamKind::Job
        | ParamKind::JobList
        | ParamKind::Deployment
        | ParamKind::DeploymentList
        | ParamKind::Stage
        | ParamKind::StageList => false,
    }
}

/// The value of a run argument, by the type of its parameter.
fn argument_value(
    alloc: Global,
    kind: Option<ParamKind>,
    argument: &Argument,
) -> Result<MarkedNode, ExpandFault>
    ensures { Gives result (argument_value kind argument.now) }
{
    match kind {
        None => Ok(whole_text(alloc, argument)?),
        Some(kind) => {
            if is_text(kind) {
                Ok(whole_text(alloc, argument)?)
            } else {
                read_text(alloc, argument)
            }
        }
    }
}

/// What a run argument gives.
fn argument_given(
    alloc: Global,
    declared: &Declared,
    argument: &Argument,
) -> Result<Given, ExpandFault>
    ensures { Gives result (argument_given declared.now argument.now) }
{
    let kind = kind_for(declared, &argument.name);
    let value = argument_value(alloc, kind, argument)?;
    let name = argument.name.copy(alloc)?;
    let place = argument_place(alloc, argument)?;
    Ok(Given { name, place, value })
}

/// What the run arguments give, in their order.
fn arguments_given(
    alloc: Global,
    declared: &Declared,
    arguments: &List<Argument>,
) -> Result<List<Given>, ExpandFault>
    ensures { Gives result (arguments_given declared.now arguments.now []) }
{
    let mut given = List::new(alloc);
    for argument in arguments.as_slice() {
        let one = argument_given(alloc, declared, argument)?;
        given.push(one)?;
    }
    Ok(given)
}

/// What is bound to the declared parameters. X14 where something is given wrongly.
fn bound_by(
    alloc: Global,
    declared: &Declared,
    arguments: &List<Argument>,
) -> Result<List<Bound>, ExpandFault>
    ensures { Gives result (bound_by declared.now arguments.now) }
{
    let given = arguments_given(alloc, declared, arguments)?;
    bound_to(alloc, declared, &given)
}

/// The root file's parameters: what is declared, bound to the run arguments. X14 where a parameter
/// is declared or given wrongly, X16 where an argument's text isn't in the profile of YAML that is
/// read, Memory where memory is wanting (Microsoft Learn, Azure Pipelines, "Runtime parameters").
pub fn parameters_by(
    alloc: Global,
    meter: &Meter,
    node: Option<&Node>,
    arguments: &List<Argument>,
) -> Result<List<Parameter>, ExpandFault>
    ensures { Gives result (parameters_by (option_copied node.entry) arguments.now) }
{
    let declared = declared_by(alloc, meter, node)?;
    let bound = bound_by(alloc, &declared, arguments)?;
    let none = SharedList::new(alloc)?;
    Ok(parameters_of(alloc, &none, &declared, bound)?)
}
