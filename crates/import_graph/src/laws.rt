// Laws, each proved for all bytes. The calls have them by their contracts.
ghost use Rattle.import_graph.specs.Laws.{BetweenLastMarks, LineImports, LinesImportInTurn};
ghost use Rattle.import_graph.specs.GraphLaws.{LevelsEnd, ReachedByWalks, ReachedOnce};
ghost use Rattle.import_graph.specs.GraphSteps.{GraphAfterSteps};

/// What a line is taken to name stands in it between two marks of one kind, and no such mark stands
/// in it or behind the second; each text that stands so is taken.
pub fn between_last_marks()
    ensures { BetweenLastMarks }
{}

/// A line imports a text exactly where it begins with one of the three words behind its blanks, and
/// the text is UTF-8 and stands between the last two quotes, or else the last two apostrophes.
pub fn line_imports()
    ensures { LineImports }
{}

/// Two texts with a line feed between them import what each imports, in turn.
pub fn lines_import_in_turn()
    ensures { LinesImportInTurn }
{}

/// A file is reached exactly where a walk along answered edges leads to it from an entry that is a file.
pub fn reached_by_walks()
    ensures { ReachedByWalks }
{}

/// No file is reached twice.
pub fn reached_once()
    ensures { ReachedOnce }
{}

/// No level is beyond the count of the tree's files, so the graph has all levels.
pub fn levels_end()
    ensures { LevelsEnd }
{}

/// After any list of puts, removals and calls that ask for the graph, it is the one on the files that the edits leave.
pub fn graph_after_steps()
    ensures { GraphAfterSteps }
{}
