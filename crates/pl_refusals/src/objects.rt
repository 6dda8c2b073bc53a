ghost use Rattle.std.specs.Prelude.{◌≡◌, ◌++◌, IfOk};
ghost use Rattle.pl_refusals.specs.Rows.{rule_object};

use crate::fields::fields_of;
use crate::parts::{one, word};
use crate::rows::name_of;
use pl_base::{List, Memory};
use pl_json::{Json, Member};
use pl_rules::Rule;
use std::alloc::Global;

/// A rule's object: `rule` is its name, and beside it stands what it tells. Memory where memory is
/// wanting.
pub fn rule_object(alloc: Global, rule: &Rule) -> Result<Json, Memory>
    ensures { IfOk result (λ made. made ≡ rule_object rule.now) }
{
    let name = word(alloc, "rule", name_of(rule))?;
    let members = with_all(one(alloc, name)?, fields_of(alloc, rule)?)?;
    Json::object(alloc, members)
}

/// Members with more behind them.
fn with_all(
    mut members: List<Member<Json>>,
    more: List<Member<Json>>,
) -> Result<List<Member<Json>>, Memory>
    ensures { IfOk result (λ whole. whole ≡ members ++ more) }
{
    for member in more.into_vec() {
        members.push(member)?;
    }
    Ok(members)
}
