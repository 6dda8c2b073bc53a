ghost use Rattle.std.specs.Prelude.{◌≡◌, ◌+◌, codes, IfOk};
ghost use Rattle.pl_base.specs.declared.value.Value.{out-Value};
ghost use Rattle.pl_base.specs.Texts.{is};
ghost use Rattle.pl_directives.specs.Regions.{form_named, is_quiet, region_of_key, under, inside};
ghost use Rattle.pl_directives.specs.Regions.{of_item, form_at, call_form, is_begun, is_path};
ghost use Rattle.pl_directives.specs.Regions.{is_template};

use crate::progress::Content;
use pl_base::{MarkedNode, Memory, Text, Value};

/// The lists whose items may call templates, by their keys.
#[derive(Clone, Copy, Debug, PartialEq, Eq)]
pub enum Form {
    Stages,
    Jobs,
    Steps,
    Variables,
}

/// Where a node stands, as far as calls of templates go.
#[derive(Clone, Copy, Debug, PartialEq, Eq)]
pub enum Region {
    /// Its keys may hold lists of calls.
    Free,
    /// It's the value of such a key: where it is a list, its items may be calls.
    Calls(Form),
    /// It's such an item: its first key may be that of a call.
    Item(Form),
    /// It's the value of the root's `extends`: the path of a template and its arguments.
    Extends,
    /// Nothing in it is a call.
    Quiet,
}

fn form_named(key: &Text) -> Option<Form>
    ensures { result ≡ form_named key.now }
{
    match key.as_str() {
        "stages" => Some(Form::Stages),
        "jobs" => Some(Form::Jobs),
        "steps" => Some(Form::Steps),
        "variables" => Some(Form::Variables),
        _ => None,
    }
}

fn is_quiet(key: &Text) -> bool
    ensures { result ≡ is_quiet key.now }
{
    match key.as_str() {
        "parameters" | "inputs" | "env" | "matrix" => true,
        _ => false,
    }
}

fn region_of_key(key: &Text) -> Region
    ensures { result ≡ region_of_key key.now }
{
    if is_quiet(key) {
        return Region::Quiet;
    }
    match form_named(key) {
        Some(form) => Region::Calls(form),
        None => Region::Free,
    }
}

impl Region {
    /// The region of a key's value, in a mapping that stands in this one.
    pub fn under(self, key: &Text) -> Region
        ensures { result ≡ under key.now self }
    {
        match self {
            Region::Quiet => Region::Quiet,
            Region::Free | Region::Calls(_) | Region::Item(_) | Region::Extends => {
                region_of_key(key)
            }
        }
    }

    /// The region of a list that is an item of a list that stands in this one.
    pub fn inside(self) -> Region
        ensures { result ≡ inside self }
    {
        match self {
            Region::Quiet => Region::Quiet,
            Region::Free | Region::Calls(_) | Region::Item(_) | Region::Extends => Region::Free,
        }
    }

    /// The region of the pairs of a mapping that is an item of a list that stands here.
    pub fn of_item(self) -> Region
        ensures { result ≡ of_item self }
    {
        match self {
            Region::Calls(form) => Region::Item(form),
            Region::Free | Region::Item(_) | Region::Extends | Region::Quiet => self,
        }
    }

    /// What the items of a list that stands here may call.
    pub fn form_at(self) -> Option<Form>
        ensures { result ≡ form_at self }
    {
        match self {
            Region::Calls(form) | Region::Item(form) => Some(form),
            Region::Free | Region::Extends | Region::Quiet => None,
        }
    }

    /// What an item of a list that stands here calls, if it is a call.
    pub fn call_form(self, item: &MarkedNode) -> Option<Form>
        ensures { result ≡ call_form self item.now }
    {
        if is_template(&item.value) {
            self.form_at()
        } else {
            None
        }
    }

    /// Whether the value of a key behind what is there is the path of a call.
    pub fn is_path(self, content: &Content, key: &Text) -> bool
        ensures { result ≡ is_path self content.now key.now }
    {
        match self {
            Region::Item(_) => is_begun(content) && names_template(key),
            Region::Extends => names_template(key),
            Region::Free | Region::Calls(_) | Region::Quiet => false,
        }
    }
}

/// Whether a key is the one with which calls begin.
pub fn names_template(key: &Text) -> bool
    ensures { result ≡ is key.now (codes "template") }
{
    key.as_str() == "template"
}

/// Whether what is there are pairs, and none yet.
fn is_begun(content: &Content) -> bool
    ensures { result ≡ is_begun content.now }
{
    match content {
        Content::Pairs(pairs) => pairs.is_empty(),
        Content::Items(_) | Content::Unknown => false,
    }
}

/// Whether a value is a mapping with whose first key calls begin.
pub fn is_template(value: &Value) -> bool
    ensures { result ≡ is_template (out-Value value.now) }
{
    match value {
        Value::Object(pairs) => match pairs.as_slice() {
            [first, ..] => names_template(&first.key),
            [] => false,
        },
        _ => false,
    }
}

/// Where a node stands, how many nodes may still stand in it in one another, and how many levels of
/// templates may still be called from it.
#[derive(Clone, Copy)]
pub struct Standing {
    pub region: Region,
    pub levels: u32,
    pub calls: u32,
}

impl Standing {
    /// Where the value of a key stands.
    pub fn under(self, key: &Text) -> Standing
        ensures region { result.region ≡ under key.now self.region }
        ensures levels { result.levels ≡ self.levels }
        ensures calls { result.calls ≡ self.calls }
    {
        let region = self.region.under(key);
        Standing {
            region,
            levels: self.levels,
            calls: self.calls,
        }
    }

    /// Where a list that is an item stands.
    pub fn inside(self) -> Standing
        ensures region { result.region ≡ inside self.region }
        ensures levels { result.levels ≡ self.levels }
        ensures calls { result.calls ≡ self.calls }
    {
        let region = self.region.inside();
        Standing {
            region,
            levels: self.levels,
            calls: self.calls,
        }
    }

    /// Where the pairs of a mapping that is an item stand.
    pub fn of_item(self) -> Standing
        ensures region { result.region ≡ of_item self.region }
        ensures levels { result.levels ≡ self.levels }
        ensures calls { result.calls ≡ self.calls }
    {
        let region = self.region.of_item();
        Standing {
            region,
            levels: self.levels,
            calls: self.calls,
        }
    }

    /// Where what is in a node stands. Memory comes where the node may hold none.
    pub fn below(self) -> Result<Standing, Memory>
        ensures region { IfOk result (λ at. at.region ≡ self.region) }
        ensures levels { IfOk result (λ at. at.levels + 1 ≡ self.levels) }
        ensures calls { IfOk result (λ at. at.calls ≡ self.calls) }
    {
        let levels = self.levels.checked_sub(1).ok_or(Memory)?;
        Ok(Standing {
            region: self.region,
            levels,
            calls: self.calls,
        })
    }
}
