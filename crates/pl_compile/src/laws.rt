ghost use Rattle.pl_compile.specs.Named.{PlacesNameTheirFile};

/// A node or a key that stands in the file of a key, as that file's text is read, stands in that
/// file by its own place too. So what `written`, `closure` and `known` say of files is said of the
/// places' own files.
pub fn places_name_their_file()
    ensures { PlacesNameTheirFile }
{}
