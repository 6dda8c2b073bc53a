ghost use Rattle.std.specs.Prelude.{◌≡◌};
ghost use Rattle.std.specs.Option.{option_copied};
ghost use Rattle.pl_extends.specs.Forms.{is_form, form_place};

use pl_base::{List, MarkedPair, Place, Text};

/// Whether a key is that of the root's own jobs.
pub fn is_form(key: &Text) -> bool
    ensures { result ≡ is_form key.now }
{
    match key.as_str() {
        "stages" | "jobs" | "steps" => true,
        _ => false,
    }
}

/// Where the first key of the root's own jobs comes from.
#[tactic(auto, using(pl_base::proofs::Finding::find_drop_yes, pl_base::proofs::Finding::find_drop_no))]
pub fn form_place(pairs: &List<MarkedPair>) -> Option<&Place>
    ensures { option_copied result ≡ form_place pairs.now }
{
    for pair in pairs.as_slice() {
        if is_form(&pair.key) {
            return Some(&pair.key_origin.source);
        }
    }
    None
}
