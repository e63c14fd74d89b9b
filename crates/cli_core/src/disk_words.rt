// The words behind `disk`: options, a project, what asks, and what it asks for.
ghost use Rattle.std.specs.Prelude.{◌≡◌, map, option_map, string_bytes};
ghost use Rattle.cli_core.specs.DiskWords.{
  disk_form_of,
  disk_request_in,
  no_options,
  options_in,
  request_by,
  target_of,
  with_form,
};

use crate::command::form_of;
use disk_report::{DiskForm, DiskRequest, OutcomeForm};
use resolve_stack::TargetEnv;

// What the words in front of a project say of how requests over the disk are asked and told. Each is said once.
#[derive(Clone, Copy, Debug, PartialEq, Eq)]
pub(crate) struct DiskOptions {
    // How outcomes are told: by the lines of their verdicts, where no word says it.
    pub(crate) form: Option<DiskForm>,
}

impl DiskOptions {
    // With a form too, unless there is one.
    fn with_form(self, form: DiskForm) -> Option<DiskOptions>
        ensures { result ≡ with_form self form }
    {
        match self.form {
            None => Some(DiskOptions { form: Some(form) }),
            Some(_) => None,
        }
    }
}

// The requests that the words behind the program's name ask for over the disk.
pub(crate) fn disk_request(words: &[String]) -> Option<DiskRequest<'_>>
    ensures { result ≡ disk_request_in (map string_bytes words.now) }
{
    match words {
        [word, words @ ..] if word.as_str() == "disk" => {
            let (options, words) = options_in(words)?;
            request_by(options, words)
        }
        _ => None,
    }
}

// The options that words begin with, and the words behind them.
fn options_in(words: &[String]) -> Option<(DiskOptions, &[String])>
    ensures { option_map (λ found. (found.0, map string_bytes found.1.now)) result
        ≡ options_in no_options (map string_bytes words.now) }
{
    let mut options = DiskOptions { form: None };
    let mut left = words;
    while let [word, next @ ..] = left {
        let Some(form) = disk_form_of(word.as_str()) else {
            return Some((options, left));
        };
        options = options.with_form(form)?;
        left = next;
    }
    Some((options, left))
}

// The form that a word names.
fn disk_form_of(word: &str) -> Option<DiskForm>
    ensures { result ≡ disk_form_of word.now }
{
    match word {
        "--bundle" => Some(DiskForm::Bundle),
        word => form_of(word).map(DiskForm::Outcomes),
    }
}

// The requests of a working folder, a target, an importer and at least one specifier.
fn request_by<'w>(options: DiskOptions, words: &'w [String]) -> Option<DiskRequest<'w>>
    ensures { result ≡ request_by options (map string_bytes words.now) }
{
    match words {
        [cwd, target, importer, specifiers @ ..] if !specifiers.is_empty() => Some(DiskRequest {
            cwd: cwd.as_str(),
            target: target_of(target.as_str())?,
            importer: importer.as_str(),
            specifiers,
            form: options
                .form
                .unwrap_or(DiskForm::Outcomes(OutcomeForm::Line)),
        }),
        _ => None,
    }
}

// The target that a word names.
fn target_of(word: &str) -> Option<TargetEnv>
    ensures { result ≡ target_of word.now }
{
    match word {
        "browser" => Some(TargetEnv::Browser),
        "node" => Some(TargetEnv::Node),
        _ => None,
    }
}
