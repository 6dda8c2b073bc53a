ghost use Rattle.pl_used_files.specs.Alone.{UsedFilesDecide};

/// An expansion depends on the files that it used alone: where a root file expands, it expands to
/// the same tree, with the same used files and the same count of nodes, over every other set that
/// has the same files at the used keys, whatever else it holds. So the used files are all that must
/// be kept of a run to expand it again.
pub fn used_files_decide()
    ensures { UsedFilesDecide }
{}
