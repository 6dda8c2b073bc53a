ghost use Rattle.pl_wrong_trees.specs.Wrong.{NoOtherFile, NoOtherItem, NoOtherText};

/// No border of a tree leads into a file that no source is, whatever gave the tree: the clauses
/// `known` and `texts` of `pl_provenance::expand` alone say so (Microsoft Learn, Azure Pipelines,
/// "Security through templates").
pub fn a_border_leads_into_a_source()
    ensures { NoOtherFile }
{}

/// No origin tells a call of an item that calls nothing: of one where no expression stands, and
/// that begins with another key than `template`, or with a path that leads elsewhere. The same
/// clauses say so of any tree, where no argument and no expression gave what has that origin.
pub fn what_is_no_call_calls_nothing()
    ensures { NoOtherItem }
{}

/// No text of a tree stands in the place of another one: where the files say one text at a place,
/// which is no number and no truth, no scalar and no key that came from there says a second one. The
/// same clauses say so of any tree, where no argument and no expression gave it; `name` and `value`
/// aside, the keys of the item that a variable becomes which is written as a pair.
pub fn no_text_stands_in_another_place()
    ensures { NoOtherText }
{}
