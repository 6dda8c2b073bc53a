ghost use Rattle.std.specs.Prelude.{◌≡◌, ℕ, List, Some};
ghost use Rattle.pl_base.specs.declared.digest.Digest.{Digest};
ghost use Rattle.pl_digests.specs.Digests.{IsDigest, digest_in, hex_of};

/// The laws of digests as texts.
///
/// The text of a digest is read as that digest, and a text that is read as one is that digest's
/// text, so that no digest has two texts.
pub fn digest_laws()
    ensures read { (told : Digest) → IsDigest told → digest_in (hex_of told) ≡ Some told }
    ensures text { (text : List ℕ) (told : Digest) → digest_in text ≡ Some told →
        text ≡ hex_of told }
    ensures is { (text : List ℕ) (told : Digest) → digest_in text ≡ Some told → IsDigest told }
{}
