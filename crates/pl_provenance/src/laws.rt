ghost use Rattle.pl_provenance.specs.Closure.{WrittenInClosure};
ghost use Rattle.pl_provenance.specs.Known.{OriginsAreKnown};
ghost use Rattle.pl_provenance.specs.Reader.{ReadersNameTheirFile};
ghost use Rattle.pl_provenance.specs.Roots.{StepsComeThrough};
ghost use Rattle.pl_provenance.specs.Texts.{TextsAreWritten};
ghost use Rattle.pl_provenance.specs.Written.{WrittenWhereTold};

/// Where the root file extends a template, all jobs and steps of the expanded pipeline came through
/// that template (Microsoft Learn, Azure Pipelines, "Security through templates").
///
/// Each key `stages`, `jobs` and `steps` of the tree, and each node and key under it, crossed the
/// border `extends` just once, and into that template. The root puts no step beside the template's,
/// whatever its expressions, its parameters and the run arguments are. Nothing is said here of the
/// root's own pairs, of `variables`, `pool` and `lockBehavior`.
pub fn steps_come_through_the_template()
    ensures { StepsComeThrough }
{}

/// Where the root file extends a template, each node and key of the jobs that no argument and no
/// expression gave is written in the file of the last border that its origin tells: in the
/// template, or in the file of the last call that led to it (Microsoft Learn, Azure Pipelines,
/// "Security through templates").
pub fn what_no_argument_gave_is_written_where_it_is_told()
    ensures { WrittenWhereTold }
{}

/// Where the root file extends a template, each node and key of the jobs that no argument and no
/// expression gave is written in the template, or in a file that it calls, itself or by files that
/// it calls (Microsoft Learn, Azure Pipelines, "Security through templates").
///
/// These files are the least set that holds the template and each file that an item calls which
/// stands in a file of the set and whose own path no argument and no expression gave behind the
/// border into the template. And they are told: in the origin of such a node the item of the first
/// call stands in the template, that of each other call in the file of the call before it, and the
/// node's source in the file of the last.
pub fn written_jobs_come_from_the_template_and_its_calls()
    ensures { WrittenInClosure }
{}

/// Each origin in an expanded tree tells places that exist: its source is that of a node or a key
/// of a used file or of what a run argument spells, each border that it tells leads into a used
/// file that is there, and each expression that took a parameter stands in a used file. The used
/// files are those that the expansion tells, the root file among them. And what no argument and no
/// expression gave stands where its borders lead: from the root file on, `extends` leads into its
/// template, the item of each call stands in the file before it, and what is told stands in the
/// last file. Such an item begins with the key `template`, and the text under it is a path that
/// leads from there to the called file; where an expression stands in that text, in the item's
/// first key or in its place, the file says that path somewhere.
///
/// It speaks of every node and key of the whole tree, whatever the root file is.
pub fn origins_tell_used_files()
    ensures { OriginsAreKnown }
{}

/// Each scalar and each key of an expanded tree that no argument gave and no expression made says
/// what is written at its place in a file: a scalar its text there, or what a parameter's type
/// reads of it, where it is a default; a key its own there. Where one expression stands in a key,
/// or goes over the pairs of an object, the text of a default may be a key and the text of a key a
/// scalar; a parameter's name is said where it is declared, and the keys `name` and `value` where a
/// variable is written as a pair (Microsoft Learn, Azure Pipelines, "Security through templates").
/// So no two texts change places, and none is another than its file's.
///
/// It speaks of every scalar and key of the whole tree, whatever the root file is.
pub fn texts_are_those_of_their_places()
    ensures { TextsAreWritten }
{}

/// Each place of what a file's text spells, of a node or of a key, is one in that file: reading
/// gives no place of another.
pub fn readers_name_their_file()
    ensures { ReadersNameTheirFile }
{}
