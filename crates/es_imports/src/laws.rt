//! Laws of the pieces that a text is cut into, and of the forms of imports.
ghost use Rattle.es_imports.specs.Laws.{BlanksChangeNothing, FormsAreFound, PiecesAreTheText};

/// The pieces joined are the text, behind a line that names an interpreter.
pub fn pieces_are_the_text()
    ensures { PiecesAreTheText }
{}

/// White space and comments between tokens change nothing of what is imported.
pub fn blanks_change_nothing()
    ensures { BlanksChangeNothing }
{}

/// Each form of import is found, wherever no other has begun.
pub fn forms_are_found()
    ensures { FormsAreFound }
{}
