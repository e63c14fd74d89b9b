// A clean absolute path, seen as the list of its names, the last one first.
ghost use Rattle.std.specs.Prelude.{
  ◌≡◌,
  [],
  ◌∷◌,
  ◌++◌,
  IfOk,
  IsTrue,
  MatchOption,
  OnOk,
  OnErr,
  cond,
  not,
  string_bytes,
};
ghost use Rattle.sugar_path.specs.Path.{
  IsName,
  IsPath,
  IsCleanPath,
  has_no_slash,
  steps,
  text_of,
  parent,
  is_root,
  is_absolute,
  by_part,
  by_parts,
  parts,
  path_in,
  path_eq,
  clean,
  below,
};
ghost use Rattle.std.specs.Cmp.{partial_equiv_from_equiv};
ghost use Rattle.std.specs.Hash as fed;
ghost use Rattle.std.specs.Hash.{same_Alike};
ghost use Rattle.sugar_path.specs.PathEq.{path_eq-Decides, path_eq-equivalence};

use crate::clean::is_clean;
use crate::content::Content;
use crate::part::{Lead, lead_of};
use crate::plain::Text;
use std::alloc::{AllocError, Global};
use std::fmt;
use std::hash::{Hash, Hasher};
use std::marker::Model;

pub struct CleanPath {
    // each name behind a `/`, and nothing for `/` itself
    steps: Content,
}

impl Model for CleanPath {
    ghost use Rattle.sugar_path.specs.Path.{Path};

    ghost Value = { Path };

    ghost use Rattle.sugar_path.specs.Path.{names_in, IsSteps};

    ghost view = { λ p. names_in p.steps };

    ghost invariant = { λ p. IsSteps p.steps };
}

impl Drop for CleanPath {
    fn drop(self) {
        let CleanPath { steps } = self;
        drop(steps);
    }
}

impl CleanPath {
    /// The path `/`.
    pub fn root(alloc: Global) -> CleanPath
        ensures { result ≡ [] }
    {
        CleanPath {
            steps: Content::owned(String::new(alloc)),
        }
    }

    /// The path that a clean absolute text names.
    pub fn of(alloc: Global, text: &str) -> Result<CleanPath, AllocError>
        requires { IsCleanPath text.now }
        ensures { IfOk result (λ p. p ≡ path_in text.now) }
    {
        let steps = if text == "/" { "" } else { text };
        let steps = String::from_str(alloc, steps)?;
        Ok(CleanPath {
            steps: Content::owned(steps),
        })
    }

    /// The path that a clean absolute text names. It takes no memory.
    pub fn from_clean(text: Text) -> CleanPath
        requires { IsCleanPath text }
        ensures { result ≡ path_in text }
    {
        let mut steps = text.into_content();
        if steps.as_str() == "/" {
            steps.cut_at(0);
        }
        CleanPath { steps }
    }

    /// A text read from a folder, with `.`, `..` and separators resolved lexically. An absolute text is read from `/`.
    #[tactic(auto, unfolding(crate::specs::Path::clean))]
    pub fn read(alloc: Global, folder: &CleanPath, text: &str) -> Result<CleanPath, AllocError>
        ensures { IfOk result (λ p. p ≡ clean folder.now text.now) }
    {
        if text.starts_with('/') {
            return CleanPath::from_root(alloc, text);
        }
        folder.try_clone(alloc)?.follow_all(text)
    }

    // The parts of a text, read from `/`. A clean text is copied as it stands.
    #[tactic(auto, unfolding(crate::specs::Path::path_in))]
    pub(crate) fn from_root(alloc: Global, text: &str) -> Result<CleanPath, AllocError>
        ensures { IfOk result (λ p. p ≡ by_parts [] (parts text.now)) }
    {
        if is_clean(text) {
            return CleanPath::of(alloc, text);
        }
        let root = CleanPath {
            steps: Content::owned(String::with_capacity(alloc, text.len())?),
        };
        root.follow_all(text)
    }

    // Goes on by the parts of a text.
    pub(crate) fn follow_all(mut self, text: &str) -> Result<CleanPath, AllocError>
        ensures { IfOk result (λ p. p ≡ by_parts self (parts text.now)) }
    {
        for part in text.split('/') {
            self.follow(part)?;
        }
        Ok(self)
    }

    // Goes on by one part of a text.
    fn follow(&mut self, part: &str) -> Result<(), AllocError>
        requires { IsTrue (has_no_slash part.now) }
        ensures { OnOk result (self.new ≡ by_part self.old part.now) }
    {
        match lead_of(part.as_bytes()) {
            Lead::Nowhere => Ok(()),
            Lead::Up => {
                let _went = self.go_up();
                Ok(())
            }
            Lead::Down => self.go_down(part),
        }
    }

    /// The path's text: `/`, or each name behind a `/`.
    pub fn as_str(&self) -> &str
        ensures text { result.now ≡ text_of self.now }
        ensures clean { IsCleanPath result.now }
        ensures names { IsPath self.now }
    {
        let steps = self.steps.as_str();
        if steps.is_empty() { "/" } else { steps }
    }

    /// The path as its text.
    pub fn into_text(self) -> Result<Text, AllocError>
        ensures text { IfOk result (λ t. t ≡ text_of self) }
        ensures clean { IfOk result IsCleanPath }
    {
        let CleanPath { mut steps } = self;
        if steps.as_str().is_empty() {
            steps.push_name("")?;
        }
        Ok(Text::holding(steps))
    }

    /// The path's text as a string.
    pub fn into_string(self, alloc: Global) -> Result<String, AllocError>
        ensures { IfOk result (λ s. string_bytes s ≡ text_of self) }
    {
        let text = self.into_text()?;
        text.into_string(alloc)
    }

    /// The path's text as a value of its own.
    pub fn to_text(&self, alloc: Global) -> Result<Text, AllocError>
        ensures text { IfOk result (λ t. t ≡ text_of self.now) }
        ensures clean { IfOk result IsCleanPath }
    {
        let text = Text::of(alloc, self.as_str())?;
        Ok(text)
    }

    /// Whether the path is `/`.
    pub fn is_root(&self) -> bool
        ensures { result ≡ is_root self.now }
    {
        self.steps.as_str().is_empty()
    }

    /// The last name of the path. `/` has none.
    pub fn last_name(&self) -> Option<&str>
        ensures { MatchOption result (self.now ≡ [])
            (λ n. (self.now ≡ n.now ∷ parent self.now) × IsName n.now) }
    {
        let steps = self.steps.as_str();
        match steps.rfind('/') {
            None => None,
            Some(at) => Some(&steps[at + 1..]),
        }
    }

    /// Whether the path is the location or stands somewhere below it.
    pub fn is_below(&self, location: &CleanPath) -> bool
        ensures { result ≡ below self.now location.now }
    {
        let steps = self.steps.as_str().as_bytes();
        match steps.strip_prefix(location.steps.as_str().as_bytes()) {
            None => false,
            Some(rest) => rest.is_empty() || rest[0] == b'/',
        }
    }

    // The names behind a folder that the path is or lies below, each behind a `/`.
    pub(crate) fn steps_below(&self, folder: &CleanPath) -> &str
        requires { IsTrue (below self.now folder.now) }
        ensures { steps self.now ≡ steps folder.now ++ result.now }
    {
        match self.steps.as_str().strip_prefix(folder.steps.as_str()) {
            None => "",
            Some(behind) => behind,
        }
    }

    /// The child of that name.
    pub fn child(&self, alloc: Global, name: &str) -> Result<CleanPath, AllocError>
        requires { IsName name.now }
        ensures { IfOk result (λ p. p ≡ name.now ∷ self.now) }
    {
        let mut steps = self.steps.try_clone(alloc)?;
        steps.push_name(name)?;
        Ok(CleanPath { steps })
    }

    /// Goes to the child of that name.
    pub fn go_down(&mut self, name: &str) -> Result<(), AllocError>
        requires { IsName name.now }
        ensures ok { OnOk result (self.new ≡ name.now ∷ self.old) }
        ensures err { OnErr result (self.new ≡ self.old) }
    {
        self.steps.push_name(name)?;
        Ok(())
    }

    /// Goes to the folder that it stands in, and tells whether there is one: `/` stays.
    pub fn go_up(&mut self) -> bool
        ensures went { result ≡ not (is_root self.old) }
        ensures up { self.new ≡ parent self.old }
    {
        match self.steps.as_str().rfind('/') {
            None => false,
            Some(at) => {
                self.steps.cut_at(at);
                true
            }
        }
    }

    pub fn try_clone(&self, alloc: Global) -> Result<CleanPath, AllocError>
        ensures { IfOk result (λ p. p ≡ self.now) }
    {
        Ok(CleanPath {
            steps: self.steps.try_clone(alloc)?,
        })
    }
}

impl PartialEq for CleanPath {
    ghost eq = { path_eq };

    ghost laws = { partial_equiv_from_equiv path_eq-equivalence };

    fn eq(&self, other: &Self) -> bool {
        self.steps.as_str() == other.steps.as_str()
    }
}

impl Eq for CleanPath {
    ghost laws = { path_eq-equivalence };
}

impl Hash for CleanPath {
    ghost hash_input = { λ p. fed.str (steps p) };

    ghost respects_eq = { (same_Alike (λ p. fed.str (steps p)) path_eq-Decides).fed };

    fn hash<H: Hasher>(&self, state: &mut H) {
        self.steps.as_str().hash(state);
    }
}

impl fmt::Debug for CleanPath {
    fn fmt<W: fmt::Write>(&self, f: &mut fmt::Formatter<W>) -> fmt::Result {
        fmt::Debug::fmt(&self.as_str(), f)
    }
}
