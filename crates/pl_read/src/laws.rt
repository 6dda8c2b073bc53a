ghost use Rattle.std.specs.Prelude.{◌≡◌, List, Option};
ghost use Rattle.std.specs.List.{AllZip};
ghost use Rattle.pl_base.specs.declared.row.Row.{Row};
ghost use Rattle.pl_keeper.specs.declared.records.Record.{Record};
ghost use Rattle.pl_read.specs.Reading.{IsRead};

/// The law of reading: rows leave no choice in what they are read as.
pub fn reading_laws()
    ensures { (rows : List Row) (one other : List (Option Record)) → AllZip IsRead rows one →
        AllZip IsRead rows other → one ≡ other }
{}
