// What stands before a place, as far as the grammar's goals need it.
mod words;

use crate::piece::{Goal, Kind, Within};
use crate::space::has_line_end;
use std::alloc::{AllocError, Global};
pub(crate) use words::is;
use words::{after_mark, after_name, brace_behind, group_behind};

// What the latest token leaves behind it.
#[derive(Clone, Copy, PartialEq, Eq)]
pub(crate) enum Before {
    // An operand has ended: a slash divides, and a brace opens a block.
    Operand,
    // An operand is wanted: a brace opens an object.
    Operator,
    // A statement may begin: a brace opens a block.
    Statement,
    // `if`, `while`, `for` or `with`: a statement may begin behind its parentheses.
    Head,
    // A point: a name is a property.
    Dot,
}

// What is open.
#[derive(Clone, Copy, PartialEq, Eq)]
pub(crate) enum Opening {
    // The parenthesis behind `if`, `while`, `for` or `with`.
    Head,
    // Another parenthesis.
    Group,
    // The brace of a block, a body or a clause.
    Block,
    // The brace of an object.
    Object,
    // The `${` of a template.
    Substitution,
    // Within an element: an opening tag, what stands behind it, a closing tag, and the brace of an
    // expression.
    Tag,
    Children,
    ClosingTag,
    Container,
}

// What stands before a place.
#[derive(Drop)]
pub(crate) struct Scanner {
    before: Before,
    // Elements are read.
    jsx: bool,
    // What is open, the innermost last.
    openings: Vec<Opening>,
    // No token stands before in the line.
    begins_line: bool,
}

impl Scanner {
    ghost use Rattle.std.specs.Prelude.{◌≡◌, ◌++◌, ◌∷◌, [], OnOk};
    ghost use Rattle.es_imports.specs.Goals.{
      behind,
      behind_code,
      behind_element,
      behind_punctuator,
      behind_space,
      behind_tag_mark,
      closed_brace,
      closed_group,
      closed_tag,
      goal_at,
      leaving,
      start,
      top,
      within_at,
      without_top,
    };
    ghost use Rattle.es_imports.specs.ScannerView.{context};

    // At a text's front.
    pub(crate) fn new(alloc: Global, jsx: bool) -> Scanner
        ensures front { context result ≡ start }
        ensures jsx { result.jsx ≡ jsx }
    {
        Scanner {
            jsx,
            before: Before::Statement,
            openings: Vec::new(alloc),
            begins_line: true,
        }
    }

    // Goes behind a piece of that kind with that text.
    pub(crate) fn pass(&mut self, kind: Kind, text: &[u8]) -> Result<(), AllocError>
        ensures behind { OnOk result (context self.new ≡ behind self.old.jsx (context self.old) kind text.now) }
        ensures jsx { self.new.jsx ≡ self.old.jsx }
    {
        match self.within() {
            Within::Code => self.pass_code(kind, text),
            _ => self.pass_element(kind, text),
        }
    }

    // In code, or within an element.
    fn within(&self) -> Within
        ensures { result ≡ within_at (top (context self.now).openings) }
    {
        match self.openings.last() {
            Some(Opening::Tag | Opening::ClosingTag) => Within::Tag,
            Some(Opening::Children) => Within::Children,
            _ => Within::Code,
        }
    }

    fn pass_code(&mut self, kind: Kind, text: &[u8]) -> Result<(), AllocError>
        ensures behind { OnOk result (context self.new ≡ behind_code self.old.jsx (context self.old) kind text.now) }
        ensures jsx { self.new.jsx ≡ self.old.jsx }
    {
        match kind {
            Kind::WhiteSpace | Kind::Comment => self.pass_space(text),
            Kind::Name => self.leave(after_name(self.before, text)),
            Kind::TemplateHead => self.open(Before::Operator, Opening::Substitution)?,
            Kind::TemplateMiddle => self.leave(Before::Operator),
            Kind::TemplateTail => self.close(Before::Operand),
            Kind::Punctuator => self.pass_punctuator(text)?,
            _ => self.leave(Before::Operand),
        }
        Ok(())
    }

    fn pass_element(&mut self, kind: Kind, text: &[u8]) -> Result<(), AllocError>
        ensures behind { OnOk result (context self.new ≡ behind_element (context self.old) kind text.now) }
        ensures jsx { self.new.jsx ≡ self.old.jsx }
    {
        match kind {
            Kind::Punctuator => self.pass_tag_mark(text),
            _ => {
                self.leave(self.before);
                Ok(())
            }
        }
    }

    fn pass_tag_mark(&mut self, mark: &[u8]) -> Result<(), AllocError>
        ensures behind { OnOk result (context self.new ≡ behind_tag_mark (context self.old) mark.now) }
        ensures jsx { self.new.jsx ≡ self.old.jsx }
    {
        match mark {
            [b'{'] => self.open(Before::Operator, Opening::Container),
            [b'<'] => self.open(Before::Operator, Opening::Tag),
            [b'<', b'/'] => self.open(Before::Operator, Opening::ClosingTag),
            [b'/', b'>'] => {
                self.close(Before::Operand);
                Ok(())
            }
            [b'>'] => self.close_tag(),
            _ => {
                self.leave(self.before);
                Ok(())
            }
        }
    }

    fn close_tag(&mut self) -> Result<(), AllocError>
        ensures behind { OnOk result (context self.new
            ≡ closed_tag (context self.old).openings (top (context self.old).openings)) }
        ensures jsx { self.new.jsx ≡ self.old.jsx }
    {
        match self.openings.last() {
            Some(Opening::Tag) => {
                self.close(Before::Operand);
                self.open(Before::Operator, Opening::Children)
            }
            Some(Opening::ClosingTag) => {
                self.close(Before::Operand);
                self.close(Before::Operand);
                Ok(())
            }
            _ => {
                self.leave(Before::Operand);
                Ok(())
            }
        }
    }

    fn pass_space(&mut self, text: &[u8])
        ensures behind { context self.new ≡ behind_space (context self.old) text.now }
        ensures jsx { self.new.jsx ≡ self.old.jsx }
    {
        if !self.begins_line {
            self.begins_line = has_line_end(text);
        }
    }

    fn pass_punctuator(&mut self, mark: &[u8]) -> Result<(), AllocError>
        ensures behind { OnOk result (context self.new ≡ behind_punctuator self.old.jsx (context self.old) mark.now) }
        ensures jsx { self.new.jsx ≡ self.old.jsx }
    {
        match mark {
            [b'('] => self.open(Before::Operator, group_behind(self.before)),
            [b')'] => {
                self.close_group();
                Ok(())
            }
            [b'{'] => self.open(Before::Statement, brace_behind(self.before)),
            [b'}'] => {
                self.close_brace();
                Ok(())
            }
            [b'<'] if self.jsx && self.before != Before::Operand => {
                self.open(Before::Operator, Opening::Tag)
            }
            _ => {
                self.leave(after_mark(self.before, mark));
                Ok(())
            }
        }
    }

    fn close_group(&mut self)
        ensures behind { context self.new ≡ closed_group (context self.old).openings
            (top (context self.old).openings) }
        ensures jsx { self.new.jsx ≡ self.old.jsx }
    {
        match self.openings.last() {
            Some(Opening::Head) => self.close(Before::Statement),
            Some(Opening::Group) => self.close(Before::Operand),
            _ => self.leave(Before::Operand),
        }
    }

    fn close_brace(&mut self)
        ensures behind { context self.new ≡ closed_brace (context self.old).openings
            (top (context self.old).openings) }
        ensures jsx { self.new.jsx ≡ self.old.jsx }
    {
        match self.openings.last() {
            Some(Opening::Object) => self.close(Before::Operand),
            Some(Opening::Block) => self.close(Before::Statement),
            Some(Opening::Container) => self.close(Before::Operand),
            _ => self.leave(Before::Statement),
        }
    }

    fn leave(&mut self, before: Before)
        ensures behind { context self.new ≡ leaving before (context self.old).openings }
        ensures jsx { self.new.jsx ≡ self.old.jsx }
    {
        self.before = before;
        self.begins_line = false;
    }

    fn open(&mut self, before: Before, opening: Opening) -> Result<(), AllocError>
        ensures behind { OnOk result (context self.new
            ≡ leaving before ((context self.old).openings ++ (opening ∷ []))) }
        ensures jsx { self.new.jsx ≡ self.old.jsx }
    {
        self.openings.push(opening)?;
        self.leave(before);
        Ok(())
    }

    fn close(&mut self, before: Before)
        ensures behind { context self.new ≡ leaving before (without_top (context self.old).openings) }
        ensures jsx { self.new.jsx ≡ self.old.jsx }
    {
        let _ = self.openings.pop();
        self.leave(before);
    }

    // The goal here.
    pub(crate) fn goal(&self) -> Goal
        ensures { result ≡ goal_at (context self.now) }
    {
        Goal {
            divides: self.before == Before::Operand,
            in_template: matches!(self.openings.last(), Some(Opening::Substitution)),
            begins_line: self.begins_line,
            within: self.within(),
        }
    }
}
