ghost use Rattle.std.specs.Prelude.{◌≡◌, flat_map, IfOk};
ghost use Rattle.pl_opened.specs.Opened.{AreByMoment, AreFactsOf};
ghost use Rattle.pl_opened.specs.Told.{dated_of, setting_of};

use crate::told::add_told;
use pl_base::Memory;
use pl_facts::Fact;
use pl_torn::Seen;
use std::alloc::Global;

/// The settings that rows tell, and what they tell that has a moment, each as the rows stand.
#[derive(Drop)]
struct Told {
    settings: Vec<Fact>,
    dated: Vec<Fact>,
}

/// What rows tell.
fn all_told(alloc: Global, all: Vec<Seen<'_>>) -> Result<Told, Memory>
    ensures settings { IfOk result
        (λ told. told.settings.items ≡ flat_map setting_of all.entry.items) }
    ensures dated { IfOk result (λ told. told.dated.items ≡ flat_map dated_of all.entry.items) }
{
    let mut settings = Vec::new(alloc);
    let mut dated = Vec::new(alloc);
    for one in all {
        add_told(alloc, &mut settings, &mut dated, one)?;
    }
    Ok(Told { settings, dated })
}

/// Facts in order of their moments; those of one moment as they stood.
fn sorted(mut facts: Vec<Fact>) -> Result<Vec<Fact>, Memory>
    ensures { IfOk result (λ sorted. AreByMoment facts.items sorted.items) }
{
    facts.sort_by_key(|fact| fact.moment)?;
    Ok(facts)
}

/// The facts that kept rows tell: the settings in order of table and key, and then what has a
/// moment, in order of moment, and within one moment of table and key. Memory where memory is
/// wanting.
pub fn facts_of(alloc: Global, all: Vec<Seen<'_>>) -> Result<Vec<Fact>, Memory>
    ensures { IfOk result (λ facts. AreFactsOf all.entry.items facts.items) }
{
    let Told { settings, dated } = all_told(alloc, all)?;
    let mut facts = settings;
    let mut dated = sorted(dated)?;
    facts.append(&mut dated)?;
    Ok(facts)
}
