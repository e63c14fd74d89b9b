// A resolver of the tests' own, and what its users have in common.
use indexmap::IndexMap;
use resolver_core::Resolve;
use std::alloc::{AllocError, Global};
use std::test::Fail;
use sugar_path::Text;
use swc_loader::{FileName, Found, Resolution};
use tree_core::{MemoryTree, Recorder, ResolveError, Tree};

/// The refusal of a specifier that a table lacks.
#[derive(Debug, Drop)]
pub struct Unknown;

/// It answers what its table has for a specifier, asks nothing, and notes each request.
#[derive(Drop)]
pub struct Table {
    answers: IndexMap<Text, Resolution>,
    pub noted: String,
}

impl Resolve for Table {
    ghost use Rattle.std.specs.Prelude.{ℕ, List, bytes_eq, ok_or};
    ghost use Rattle.std.specs.Map.{lookup};
    ghost use Rattle.tree_core.specs.Plan.{Done};
    ghost use Rattle.swc_loader.specs.declared.resolution.Resolution.{Resolution as Answer};

    type Refusal = Unknown;

    ghost View = { List (List ℕ × Answer) };

    ghost view = { λ table. table.answers.entries };

    ghost order = { λ answers base specifier. Done (ok_or (lookup (bytes_eq specifier) answers) (record {})) };

    fn resolve<T: Tree>(
        &mut self,
        alloc: Global,
        _tree: &mut Recorder<'_, T>,
        base: &FileName,
        specifier: &str,
    ) -> Result<Resolution, ResolveError<Unknown>> {
        note(&mut self.noted, base, specifier)?;
        let key = Text::of(alloc, specifier)?;
        match self.answers.get(&key) {
            Some(answer) => Ok(answer.try_clone(alloc)?),
            None => Err(ResolveError::Refused(Unknown)),
        }
    }
}

fn note(noted: &mut String, base: &FileName, specifier: &str) -> Result<(), AllocError> {
    noted.push_str(" ")?;
    match base {
        FileName::Real(path) => noted.push_str(path.as_str())?,
        FileName::Custom(name) => noted.push_str(name.as_str())?,
        FileName::Anon => noted.push_str("-")?,
    }
    noted.push_str(">")?;
    noted.push_str(specifier)
}

/// A table from specifiers to answers, apart by blanks, with a colon between each two: a path is answered as one, with
/// the file, and any other text as a name.
pub fn table_of(alloc: Global, rows: &str) -> Result<Table, Fail> {
    let mut answers = IndexMap::new(alloc);
    for row in rows.split_whitespace() {
        let (specifier, answer) = row.split_once(':').ok_or("no answer")?;
        let specifier = Text::of(alloc, specifier)?;
        let answer = answer_of(alloc, answer)?;
        answers.insert(specifier, answer)?;
    }
    Ok(Table {
        answers,
        noted: String::new(alloc),
    })
}

fn answer_of(alloc: Global, text: &str) -> Result<Resolution, AllocError> {
    if !text.starts_with('/') {
        return Ok(Resolution::custom(Text::of(alloc, text)?));
    }
    let file = Text::of(alloc, text)?;
    Ok(Resolution {
        filename: FileName::Real(Text::of(alloc, text)?),
        slug: None,
        found: Some(Found { file, via: None }),
    })
}

/// The base of a row: a path, a name behind `custom `, or nothing.
pub fn base_of(alloc: Global, text: &str) -> Result<FileName, AllocError> {
    if text.is_empty() {
        return Ok(FileName::Anon);
    }
    match text.strip_prefix("custom ") {
        Some(name) => Ok(FileName::Custom(Text::of(alloc, name)?)),
        None => Ok(FileName::Real(Text::of(alloc, text)?)),
    }
}

/// What a request comes to over an empty tree.
pub fn ask<R: Resolve>(
    alloc: Global,
    resolver: &mut R,
    base: &str,
    specifier: &str,
) -> Result<Result<Resolution, R::Refusal>, Fail> {
    let mut tree = MemoryTree::new(alloc);
    let mut recorder = Recorder::new(alloc, &mut tree);
    let base = base_of(alloc, base)?;
    match resolver.resolve(alloc, &mut recorder, &base, specifier) {
        Ok(answer) => Ok(Ok(answer)),
        Err(ResolveError::Refused(refusal)) => Ok(Err(refusal)),
        Err(ResolveError::TreeFault) => Err(Fail::from("a fault")),
        Err(ResolveError::NoMemory) => Err(Fail::from("no memory")),
    }
}

/// An answer as a row tells it: the name, and the slug and the file where it has them.
pub fn told(alloc: Global, answer: &Resolution) -> Result<String, AllocError> {
    let mut text = String::new(alloc);
    match &answer.filename {
        FileName::Real(path) => {
            text.push_str("real ")?;
            text.push_str(path.as_str())?;
        }
        FileName::Custom(name) => {
            text.push_str("custom ")?;
            text.push_str(name.as_str())?;
        }
        FileName::Anon => text.push_str("nothing")?,
    }
    if let Some(slug) = &answer.slug {
        text.push_str(" slug ")?;
        text.push_str(slug.as_str())?;
    }
    if let Some(found) = &answer.found {
        text.push_str(" found ")?;
        text.push_str(found.file.as_str())?;
    }
    Ok(text)
}
