// What calls come to, in words.
use std::alloc::AllocError;
use swc_loader::{
    Before, FileName, ModuleRule, NodeRefusal, PackageEntry, Placed, Resolution, Rule, Searched,
    Source,
};
use tree_core::{Question, ResolveError, Trail};

// Tells a text behind a word.
fn tell(out: &mut String, word: &str, text: &str) -> Result<(), AllocError> {
    out.push_str(word)?;
    out.push_str(text)
}

// Tells the questions of a trail, each behind a blank: a path alone asks whether it is a file.
pub(crate) fn tell_questions(out: &mut String, trail: &Trail) -> Result<(), AllocError> {
    out.push_str(" |")?;
    for (question, _) in trail.iter() {
        tell(out, kind_of(question), question.path())?;
    }
    Ok(())
}

fn kind_of(question: &Question) -> &'static str {
    match question {
        Question::File(_) => " ",
        Question::Dir(_) => " dir:",
        Question::Exists(_) => " exists:",
        Question::Read(_) => " read:",
        Question::Canon(_) => " canon:",
    }
}

// Tells what a request came to, and behind ` | ` the file that was found, if any.
pub(crate) fn tell_came(
    out: &mut String,
    came: &Result<Resolution, ResolveError<NodeRefusal>>,
) -> Result<(), AllocError> {
    match came {
        Ok(resolution) => tell_resolution(out, resolution),
        Err(ResolveError::Refused(refusal)) => tell_refusal(out, refusal),
        Err(ResolveError::TreeFault) => out.push_str("a fault"),
        Err(ResolveError::NoMemory) => out.push_str("no memory"),
    }
}

pub(crate) fn tell_resolution(out: &mut String, resolution: &Resolution) -> Result<(), AllocError> {
    tell_name(out, &resolution.filename)?;
    match &resolution.found {
        Some(found) => tell(out, " | ", found.file.as_str()),
        None => out.push_str(" | "),
    }
}

pub(crate) fn tell_name(out: &mut String, name: &FileName) -> Result<(), AllocError> {
    match name {
        FileName::Real(name) => out.push_str(name.as_str()),
        FileName::Custom(name) => tell(out, "custom ", name.as_str()),
        FileName::Anon => out.push_str("anonymous"),
    }
}

fn tell_refusal(out: &mut String, refusal: &NodeRefusal) -> Result<(), AllocError> {
    match refusal {
        NodeRefusal::NotFound { text } => tell(out, "nothing ", text.as_str())?,
        NodeRefusal::BaseNotAFile => out.push_str("no path")?,
        NodeRefusal::MalformedPackage { path } => tell(out, "malformed ", path.as_str())?,
    }
    out.push_str(" | ")
}

pub(crate) fn tell_searched(out: &mut String, found: &Searched) -> Result<(), AllocError> {
    match found {
        Searched::File(file) => out.push_str(file.as_str()),
        Searched::Nothing => out.push_str("nothing"),
        Searched::Malformed(file) => tell(out, "malformed ", file.as_str()),
        Searched::Unfound => out.push_str("unfound"),
    }
}

pub(crate) fn tell_entry(out: &mut String, entry: &PackageEntry) -> Result<(), AllocError> {
    match entry {
        PackageEntry::Malformed => out.push_str("malformed"),
        PackageEntry::Missing => out.push_str("missing"),
        PackageEntry::At(text) => tell(out, "at ", text.as_str()),
    }
}

// Tells each rule in brackets.
pub(crate) fn tell_rules(out: &mut String, rules: &[Rule]) -> Result<(), AllocError> {
    for rule in rules {
        tell_source(out, &rule.source)?;
        match &rule.target {
            Some(file) => tell(out, " is ", file.as_str())?,
            None => out.push_str(" is ignored")?,
        }
        out.push_str(")")?;
    }
    Ok(())
}

fn tell_source(out: &mut String, source: &Source) -> Result<(), AllocError> {
    match source {
        Source::File(file) => tell(out, "(file ", file.as_str()),
        Source::Specifier(text) => tell(out, "(specifier ", text.as_str()),
    }
}

pub(crate) fn tell_module_rule(out: &mut String, rule: &ModuleRule) -> Result<(), AllocError> {
    match rule {
        ModuleRule::NoRule => out.push_str("no rule"),
        ModuleRule::Ignored => out.push_str("ignored"),
        ModuleRule::File(file) => tell(out, "file ", file.as_str()),
    }
}

pub(crate) fn tell_before(out: &mut String, before: &Before) -> Result<(), AllocError> {
    match before {
        Before::Decided(resolution) => tell_name(out, &resolution.filename),
        Before::Target(target) => tell(out, "target ", target.as_str()),
    }
}

pub(crate) fn tell_placed(out: &mut String, placed: &Placed) -> Result<(), AllocError> {
    match placed {
        Placed::File { path, rewritten } => {
            let word = if *rewritten { "rewritten " } else { "found " };
            tell(out, word, path.as_str())
        }
        Placed::Ignored(name) => tell(out, "ignored ", name.as_str()),
    }
}
