ghost use Rattle.pl_bundle.specs.Written.{WrittenIsRead};

/// What is written of files, each as its line `%%% REPO REF PATH` and its text, is read as these
/// files: where no part of a key has a space or a line feed, and each text is whole lines of which
/// none names a file.
pub fn written_is_read()
    ensures { WrittenIsRead }
{}
