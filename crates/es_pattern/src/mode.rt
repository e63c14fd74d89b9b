// Where in a pattern's text its reader stands.

// A group that is open.
#[derive(Clone, Copy, Debug, PartialEq, Eq)]
pub(crate) enum Open {
    // `(` or `(?:`.
    Group,
    // `(?=`, or `(?!` where `negated`.
    Ahead { negated: bool },
}

// What may stand next in a pattern's text.
#[derive(Clone, Copy, Debug, PartialEq, Eq)]
pub(crate) enum Mode {
    // A term.
    Term,
    // A term, or a quantifier of the atom before.
    Atom,
    // A term, or the `?` of a lazy quantifier.
    Quantified,
    // What may stand after an atom, but no digit: after `\0`.
    Zero,
    // The rest of braces, which are a quantifier or characters for themselves.
    Braces {
        after_atom: bool,
    },
    // The rest of an escape after its backslash.
    Escape,
    // So many more hexadecimal digits.
    Hex {
        value: u32,
        left: u32,
    },
    // What follows `(`.
    Paren,
    // What follows `(?`.
    ParenQuestion,
    // What follows `[`.
    ClassOpen,
    // The first item of a class.
    ClassFirst,
    // An item of a class after a range or a set.
    ClassNext,
    // What follows `-` after a range or a set of a class: the class's end, or `-` as in `--a`.
    ClassNextDash,
    // What follows `--` after a range or a set of a class: the end of a range from `-` on.
    ClassNextDashes,
    // What follows a character of a class.
    ClassChar {
        first: char,
    },
    // What follows a character of a class and `-`.
    ClassDash {
        first: char,
    },
    // What follows `\0` in a class, which ends a range where `is_last`.
    ClassZero {
        is_last: bool,
    },
    // The rest of an escape in a class after its backslash, which ends a range from `first` on
    // where there is one.
    ClassEscape {
        first: Option<char>,
    },
    // So many more hexadecimal digits of an escape in a class.
    ClassHex {
        first: Option<char>,
        value: u32,
        left: u32,
    },
}
