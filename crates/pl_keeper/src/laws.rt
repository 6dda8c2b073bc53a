ghost use Rattle.std.specs.Prelude.{◌≡◌};
ghost use Rattle.pl_keeper.specs.declared.records.Record.{Record};
ghost use Rattle.pl_keeper.specs.Keeping.{place, place_cmp};
ghost use Rattle.pl_keeper.specs.Rows.{row_of, IsKept, IsShortRecord};
ghost use Rattle.pl_keeper.specs.Sorting.{record_cmp};

/// The laws of records and their rows.
///
/// A row is one record's at most. So what `encode` writes is read by `decode` as the record, where
/// that is within the limits, and what `decode` reads is written by `encode` as that row again,
/// byte for byte; it can be written, since its lengths fit. Rows sort, by table and by the bytes of
/// the key, as their records do, by table and by the fields of the key in order: numbers as
/// numbers, kinds in the order of their listing, and texts the shorter first, then byte by byte.
pub fn record_laws()
    ensures one { (left right : Record) → IsKept left → IsKept right →
        row_of left ≡ row_of right → left ≡ right }
    ensures sorted { (left right : Record) → IsKept left → IsKept right →
        place_cmp (place (row_of left)) (place (row_of right)) ≡ record_cmp left right }
    ensures short { (kept : Record) → IsKept kept → IsShortRecord kept }
{}
