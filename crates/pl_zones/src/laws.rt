ghost use Rattle.std.specs.Prelude.{◌≡◌, ℕ, List};
ghost use Rattle.pl_zones.specs.declared.local.Local.{Local};
ghost use Rattle.pl_zones.specs.Locals.{IsLocal};

/// The law that a zone's text and a moment leave no choice in what its clocks show.
pub fn zone_laws()
    ensures one { (text : List ℕ) (moment : ℕ) (left right : Local) →
        IsLocal text moment left → IsLocal text moment right → left ≡ right }
{}
