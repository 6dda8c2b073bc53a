ghost use Rattle.std.specs.Prelude.{◌≡◌, IfOk};
ghost use Rattle.std.specs.Option.{option_copied};
ghost use Rattle.pl_directives.specs.Gives.{Gives};
ghost use Rattle.pl_directives.specs.declared.fault.ExpandProblem.TheVariants.{ExtendsInTemplate};
ghost use Rattle.pl_calls.specs.Judging.{form_key, stray, may_stand, template_in, body_in};
ghost use Rattle.pl_calls.specs.Judging.{mapping_in, held, may_give, fits, body_fits};
ghost use Rattle.pl_template.specs.Forms.{form_of};
ghost use Rattle.pl_calls.specs.Nodes.{GivesNode, GivesPairs};
ghost use Rattle.pl_calls.specs.Parts.{body_of};
ghost use Rattle.pl_calls.specs.Reaching.{node_in};

use crate::files::Parsed;
use crate::parts::key_place;
use pl_base::{List, Memory, Node, NodeBody, NodePair, Place, Text};
use pl_directives::{ExpandFault, ExpandProblem, Form, refuse};
use pl_params::under;
use pl_template::{ScalarForm, scalar_form};
use pl_yaml::YamlFault;
use std::alloc::Global;

/// The key under which a form stands.
pub fn form_key(form: Form) -> &'static str
    ensures { result.now ≡ form_key form }
{
    match form {
        Form::Stages => "stages",
        Form::Jobs => "jobs",
        Form::Steps => "steps",
        Form::Variables => "variables",
    }
}

/// The node of a file that was read. X16 where it couldn't be read as YAML, and Memory where memory
/// was wanting for it.
pub fn node_in(alloc: Global, file: &Parsed) -> Result<&Node, ExpandFault>
    ensures { GivesNode result (node_in file.now) }
{
    match file {
        Parsed::Good(node) => Ok(node),
        Parsed::Bad(YamlFault::Refused(code, place)) => {
            refuse(alloc, ExpandProblem::BadFile(*code), place)
        }
        Parsed::Bad(YamlFault::Memory) => Err(ExpandFault::Memory),
    }
}

/// The pairs of a template. X9 where it is no mapping, X10 where it extends another one.
pub fn template_in(alloc: Global, node: &Node) -> Result<&List<NodePair>, ExpandFault>
    ensures { GivesPairs result (template_in node.now) }
{
    let NodeBody::Map(pairs) = &node.body else {
        return refuse(alloc, ExpandProblem::WrongKind, &node.place);
    };
    match key_place("extends", pairs) {
        None => Ok(pairs),
        Some(place) => refuse(alloc, ExpandProblem::ExtendsInTemplate, place),
    }
}

/// Whether a key may stand in a template that an item of a list of that form calls.
fn may_stand(form: Form, key: &Text) -> bool
    ensures { result ≡ may_stand form key.now }
{
    key.as_str() == "parameters" || key.as_str() == form_key(form)
}

/// The first key that may not stand there.
#[tactic(auto, using(pl_base::proofs::Finding::find_drop_yes, pl_base::proofs::Finding::find_drop_no))]
fn stray(form: Form, pairs: &List<NodePair>) -> Option<&Place>
    ensures { option_copied result ≡ stray (may_stand form) pairs.now }
{
    for pair in pairs.as_slice() {
        if !may_stand(form, &pair.key) {
            return Some(&pair.key_place);
        }
    }
    None
}

/// The value of a template's form. X9 at the template where it lacks that key, and at another key
/// than `parameters` beside it.
pub fn body_in<'n>(
    alloc: Global,
    form: Form,
    place: &Place,
    pairs: &'n List<NodePair>,
) -> Result<&'n Node, ExpandFault>
    ensures { GivesNode result (body_in form place.now pairs.now) }
{
    let Some(body) = under(form_key(form), pairs) else {
        return refuse(alloc, ExpandProblem::WrongKind, place);
    };
    match stray(form, pairs) {
        None => Ok(body),
        Some(place) => refuse(alloc, ExpandProblem::WrongKind, place),
    }
}

/// Whether a text may give a list or a mapping: where it's one expression, or one without an end,
/// which is refused as a scalar.
pub fn may_give(alloc: Global, text: &Text) -> Result<bool, Memory>
    ensures { IfOk result (λ answer. answer ≡ may_give (form_of text.now)) }
{
    match scalar_form(alloc, text)? {
        ScalarForm::Whole(_) | ScalarForm::Unclosed => Ok(true),
        ScalarForm::Plain | ScalarForm::Joined(_) => Ok(false),
    }
}

/// Whether the value of a template's form is written as what its list may take.
fn fits(alloc: Global, form: Form, body: &Node) -> Result<bool, Memory>
    ensures { IfOk result (λ answer. answer ≡ fits form (body_of body.now)) }
{
    match &body.body {
        NodeBody::Scalar(text) => may_give(alloc, text),
        NodeBody::Seq(_) => Ok(true),
        NodeBody::Map(_) => match form {
            Form::Variables => Ok(true),
            Form::Stages | Form::Jobs | Form::Steps => Ok(false),
        },
    }
}

/// X9 at the value of a template's form that is written as no list, nor as one expression; a
/// mapping may stand for variables.
pub fn judge_body(alloc: Global, form: Form, body: &Node) -> Result<(), ExpandFault>
    ensures { Gives result (body_fits form body.now) }
{
    if fits(alloc, form, body)? {
        return Ok(());
    }
    refuse(alloc, ExpandProblem::WrongKind, &body.place)
}
