// What a text is cut into.
// The kind of a piece.
#[derive(Clone, Copy)]
pub(crate) enum Kind {
    WhiteSpace,
    Comment,
    // A name, keywords among them.
    Name,
    // A name behind `#`.
    PrivateName,
    Number,
    StringLiteral,
    // A template without substitutions.
    Template,
    // What stands before, between and behind the substitutions of a template.
    TemplateHead,
    TemplateMiddle,
    TemplateTail,
    RegularExpression,
    Punctuator,
    // In an element: text between tags, a name in a tag, and an attribute's string.
    ElementText,
    TagName,
    AttributeString,
}

// Whether a place is in code, or in an element: in one of its tags, or between these.
#[derive(Clone, Copy)]
pub(crate) enum Within {
    Code,
    Tag,
    Children,
}

// A piece at a text's front, which takes so many bytes.
#[derive(Clone, Copy)]
pub(crate) struct Piece {
    pub(crate) kind: Kind,
    pub(crate) len: usize,
}

// Which of the grammar's goals holds at a place.
#[derive(Clone, Copy)]
pub(crate) struct Goal {
    // A slash is a division, and else begins a regular expression.
    pub(crate) divides: bool,
    // A closing brace ends a substitution, and goes on with its template.
    pub(crate) in_template: bool,
    // No token stands before in the line.
    pub(crate) begins_line: bool,
    pub(crate) within: Within,
}

impl Piece {
    ghost use Rattle.std.specs.Prelude.{◌≡◌};
    ghost use Rattle.es_imports.specs.Literals.{piece};

    pub(crate) fn new(kind: Kind, len: usize) -> Piece
        ensures { result ≡ piece kind len }
    {
        Piece { kind, len }
    }
}
