ghost use Rattle.std.specs.Prelude.{List};
ghost use Rattle.pl_base.specs.declared.digest.Digest.{Digest};
ghost use Rattle.pl_facts.specs.declared.entry.Entry.{Entry};
ghost use Rattle.pl_history.specs.Access.{IsSound};
ghost use Rattle.pl_history.specs.Guarded.{IsGuarded};
ghost use Rattle.pl_history.specs.History.{Opening, opened};
ghost use Rattle.pl_history.specs.Legal.{Legal};

use pl_granting_laws::settling_laws;

/// Laws of legal histories.
///
/// Each stage that an entry starts was the next one at that moment and on all facts before: it
/// waited for nothing more, its condition was true, its pipeline might use what it uses, every
/// check passed, and every exclusive resource that it uses was free. And behind each fact of an
/// entry an exclusive resource has one holder at most, where the opening is sound. A service that
/// is opened for the first time is. Each entry begins with all that was due, and leaves no gap
/// there: something keeps each stage waiting that is neither started nor ended.
pub fn access_laws()
    ensures guarded { (opening : Opening) (entries : List Entry) → Legal opening entries →
        IsGuarded opening entries }
    ensures sound { (admin : Digest) → IsSound (opened admin) }
{
    settling_laws();
}
