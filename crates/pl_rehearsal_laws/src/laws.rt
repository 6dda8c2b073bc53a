ghost use Rattle.std.specs.Prelude.{◌≡◌, ℕ};
ghost use Rattle.pl_base.specs.declared.digest.Digest.{Digest};
ghost use Rattle.pl_rehearsal.specs.Summary.{IsSummary};
ghost use Rattle.pl_rehearsal.specs.declared.summary.Summary.{Summary};

use pl_reply_laws::reply_laws;

/// The law that how many runs are rehearsed tells what that comes to.
pub fn rehearsal_laws()
    ensures one { (admin : Digest) (runs : ℕ) (left right : Summary) →
        IsSummary admin runs left → IsSummary admin runs right → left ≡ right }
{
    reply_laws();
}
