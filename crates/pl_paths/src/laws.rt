ghost use Rattle.pl_paths.specs.Laws.{HasNoDots, IsResolved};

use pl_base::Text;

/// Where a path leads there is neither `.` nor `..` among the segments.
pub fn resolved_has_no_dots(_path: &Text)
    ensures { HasNoDots _path.now }
{}

/// A path that was resolved leads to itself, whichever file holds it.
pub fn resolved_leads_to_itself(_file: &Text, _path: &Text)
    ensures { IsResolved _file.now _path.now }
{}
