ghost use Rattle.std.specs.Prelude.{◌≡◌, List};
ghost use Rattle.pl_base.specs.declared.row.Row.{Row};
ghost use Rattle.pl_seeing.specs.Seeing.{AreSeen};
ghost use Rattle.pl_torn.specs.Seen.{AreInOrder};
ghost use Rattle.pl_keeper.specs.Keeping.{IsInOrder};
ghost use Rattle.pl_torn.specs.declared.seen.Seen.{Seen};

/// The laws of what is seen of rows: it is in order where they are.
pub fn seeing_laws()
    ensures order { (rows : List Row) (all : List Seen) → IsInOrder rows → AreSeen rows all →
        AreInOrder all }
{}
