//! Principals.

ghost use Rattle.std.specs.Prelude.{◌≡◌, IfOk};
ghost use Rattle.std.specs.Option.{option_copied};
ghost use Rattle.pl_settings.specs.Settings as spec;

use pl_answers::{Answer, empty_object};
use pl_base::{ExactCopy, Memory, Shared, Text};
use pl_facts::Event;
use pl_journal::Journal;
use pl_requests::{PrincipalSetting, Rule};
use std::alloc::Global;

/// The name of another principal that has the token now.
fn other_owner<'j>(journal: &'j Journal, told: &PrincipalSetting) -> Option<&'j Text>
    ensures { option_copied result ≡ spec.other_owner journal.now told.now }
{
    match journal.principal_with(&told.digest) {
        Some(owner) if owner.name != told.name => Some(&owner.name),
        _ => None,
    }
}

/// What `PUT /principals/{name}` is answered: 200 `{}`, and the principal has these roles and this
/// token from then on. 409 `principal.reserved` for `admin`, who is built in; then 409
/// `token.taken`, by whom, where another principal has the token. Memory where memory is wanting.
pub fn set_principal(
    alloc: Global,
    journal: &Journal,
    told: &Shared<PrincipalSetting>,
) -> Result<Answer, Memory>
    ensures { IfOk result (λ answer. answer ≡ spec.set_principal journal.now told.now) }
{
    if told.name.as_str() == "admin" {
        return Answer::refusal(alloc, 409, &Rule::PrincipalReserved);
    }
    if let Some(name) = other_owner(journal, told) {
        let name = name.copy(alloc)?;
        return Answer::refusal(alloc, 409, &Rule::TokenTaken { name });
    }
    let event = Event::PrincipalSet(told.copy(alloc)?);
    Ok(Answer::with_fact(empty_object(alloc), event))
}
