ghost use Rattle.pl_yaml_laws.specs.Between.{PassedOverBetween, PassedOverInside};
ghost use Rattle.pl_yaml_laws.specs.Breaks.{LineBreaksAreAlike};
ghost use Rattle.pl_yaml_laws.specs.Chomping.{ChompingChangesTheEnd, KeepingKeepsAll};
ghost use Rattle.pl_yaml_laws.specs.EmptyLines.{PassedOverBeforeItems, PassedOverBeforeNodes};
ghost use Rattle.pl_yaml_laws.specs.EmptyLines.{PassedOverBeforePairs, PassedOverInDocuments};
ghost use Rattle.pl_yaml_laws.specs.EmptyLines.{PassedOverInTexts};
ghost use Rattle.pl_yaml_laws.specs.Faults.{FaultsAreFirst, FaultsStandInTheText};
ghost use Rattle.pl_yaml_laws.specs.Lines.{RowsAreLines};
ghost use Rattle.pl_yaml_laws.specs.PlainTexts.{PlainKeyIsItself, PlainTextIsItself};
ghost use Rattle.pl_yaml_laws.specs.PlainTexts.{PlainValueIsItself};
ghost use Rattle.pl_yaml_laws.specs.SingleQuotes.{QuotedKeyIsItsText, QuotedReadsAsItsText};
ghost use Rattle.pl_yaml_laws.specs.SingleQuotes.{QuotedTextIsItsText, QuotedValueIsItsText};

/// A line feed and a carriage return before a line feed end a line alike: a text spells the same,
/// its places and its faults included, without the carriage returns that stand before line feeds,
/// unless another one then stands before a line feed.
pub fn line_breaks_are_alike()
    ensures { LineBreaksAreAlike }
{}

/// A text in single quotes, each quote in it doubled, spells that text: at any column of a line,
/// whatever stands behind it (clause `scalar`), as the value of a key or a dash on its line
/// (`value`), as a key (`key`), and as a whole text of one line (`text`).
pub fn single_quotes_hold_their_text()
    ensures scalar { QuotedReadsAsItsText }
    ensures value { QuotedValueIsItsText }
    ensures key { QuotedKeyIsItsText }
    ensures text { QuotedTextIsItsText }
{}

/// A plain text that the rules of YAML allow on one line outside flow collections spells itself: as
/// the value of a key or a dash on its line, where no line behind continues it (clause `value`), as
/// a key (`key`), and as a whole text of one line, unless that is a marker of documents (`text`).
pub fn plain_texts_are_themselves()
    ensures value { PlainValueIsItself }
    ensures key { PlainKeyIsItself }
    ensures text { PlainTextIsItself }
{}

/// Block scalars with the indicators `-`, none and `+` over the same lines differ at their end
/// alone: `-` gives the content, which ends with no line feed, `+` adds to it every line feed that
/// stands there, and neither adds one of them, behind a content that isn't empty. What follows the
/// scalar is the same, and so is the fault where one is refused (clause `ends`). `|+` keeps every
/// line and every break (`keeps`). The rows of a text meet what the first clause asks of its rows
/// (`rows`).
pub fn chomping_changes_the_end()
    ensures ends { ChompingChangesTheEnd }
    ensures keeps { KeepingKeepsAll }
    ensures rows { RowsAreLines }
{}

/// A comment line or an empty line changes nothing but the numbers of the lines behind it, where an
/// entry or a node is to begin: before the rows of a text (clause `rows`) and so before a text
/// (`text`), before the value of a key or a dash on later lines (`value`), and before the next
/// entry of a sequence (`items`) or of a mapping (`pairs`). Rows keep their numbers, so the places
/// of what is read are told by the rows alone.
///
/// In the middle of a text it changes nothing before a line with content at which no scalar of
/// several lines goes on (`between`, and of a whole text `inside`), as the lines before the place
/// tell (`all_ended`): each is followed, still before the place, by a line that isn't deeper than
/// it (or than two columns behind it, where it begins with a dash before a collection); or it has
/// no `|` and no `>`, and it ends with `:`, or the next line with content isn't deeper, has a
/// mapping's `:` or is a comment. Where a scalar stands alone on the line behind it, the same holds
/// of that scalar, with the first line's column. Of places in a scalar of several lines, and
/// directly behind one, nothing is said. The tree is the same, with the lines behind the place
/// numbered one further, and so is a fault, unless it is told on the line behind the place: there a
/// line that can't go on with a plain scalar is told otherwise where a comment ended it.
pub fn empty_lines_are_passed_over()
    ensures rows { PassedOverInDocuments }
    ensures text { PassedOverInTexts }
    ensures value { PassedOverBeforeNodes }
    ensures items { PassedOverBeforeItems }
    ensures pairs { PassedOverBeforePairs }
    ensures between { PassedOverBetween }
    ensures inside { PassedOverInside }
{}

/// A fault is the first one: it doesn't depend on what stands behind its line. A text that is
/// refused on one of the lines before a line feed is refused with the same code at the same place
/// whatever stands behind that line feed, unless the line has blanks alone (clause `first`). Each
/// fault is told on a line of the text (`line`).
pub fn faults_are_first()
    ensures first { FaultsAreFirst }
    ensures line { FaultsStandInTheText }
{}
