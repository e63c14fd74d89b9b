// Whether the bundle of a document's requests is read again, gives the document's lines, and is refused at the line in
// which it is cut.
use bundle_report::bundle_report_for;
use document_core::{Document, DocumentError, project_in, read_document};
use report_core::line_of_verdict;
use resolve_stack::{Project, Verdict};
use std::alloc::{AllocError, Global};
use trail_bundle::{Bundle, BundleReplayError, DecodeError};

// The longest text that is cut at each of its characters, in bytes. Of a longer one each line is cut at some.
const CUT_EVERYWHERE: usize = 4096;

/// What a document's bundle came to.
#[derive(Drop)]
pub struct BundleTries {
    /// The places at which its text was cut.
    pub cuts: usize,
    /// The tries that told something else: of the text, of the lines that it replays to, and of each cut.
    pub differ: usize,
}

impl BundleTries {
    /// Those of a document that isn't bundled.
    pub fn none() -> BundleTries {
        BundleTries { cuts: 0, differ: 0 }
    }

    fn note(&mut self, is_right: bool) {
        if !is_right {
            self.differ = self.differ.saturating_add(1);
        }
    }
}

// A line of a text: its number from 1, where it begins, and its length without its end, in bytes.
#[derive(Drop)]
struct Line {
    number: usize,
    start: usize,
    length: usize,
}

/// Tries the bundle of a document, whose requests give these lines. A document that is refused has none.
pub fn bundle_in(alloc: Global, document: &[u8], lines: &[u8]) -> Result<BundleTries, AllocError> {
    match tries_of(alloc, document, lines) {
        Ok(tries) => Ok(tries),
        Err(DocumentError::Refused(_)) => Ok(BundleTries::none()),
        Err(DocumentError::NoMemory) => Err(AllocError),
    }
}

fn tries_of(alloc: Global, document: &[u8], lines: &[u8]) -> Result<BundleTries, DocumentError> {
    let text = bundle_report_for(alloc, document)?;
    let mut tries = BundleTries::none();
    match Bundle::decode(alloc, text.as_str()) {
        Ok(bundle) => {
            tries.note(is_text_of(alloc, &bundle, text.as_str())?);
            tries.note(gives(alloc, document, &bundle, lines)?);
        }
        Err(DecodeError::NotABundle { line: _ }) => tries.note(false),
        Err(DecodeError::NoMemory) => return Err(DocumentError::NoMemory),
    }
    cut_lines(alloc, text.as_str(), &mut tries)?;
    Ok(tries)
}

fn is_text_of(alloc: Global, bundle: &Bundle, text: &str) -> Result<bool, AllocError> {
    let written = bundle.encode(alloc)?;
    Ok(written.as_str() == text)
}

// Whether a bundle replays to these lines in a document's project.
fn gives(
    alloc: Global,
    document: &[u8],
    bundle: &Bundle,
    lines: &[u8],
) -> Result<bool, DocumentError> {
    let Document {
        settings,
        lock,
        files: _,
        requests: _,
    } = read_document(alloc, document)?;
    let project = project_in(alloc, settings, &lock)?;
    Ok(replays_to(alloc, bundle, &project, lines)?)
}

fn replays_to(
    alloc: Global,
    bundle: &Bundle,
    project: &Project<'_>,
    lines: &[u8],
) -> Result<bool, AllocError> {
    match bundle.replay_all(alloc, project) {
        Ok(verdicts) => Ok(lines_of(alloc, verdicts.as_slice())?.as_bytes() == lines),
        Err(
            BundleReplayError::NotRecorded {
                request: _,
                question: _,
            },
        ) => Ok(false),
        Err(BundleReplayError::NoMemory) => Err(AllocError),
    }
}

fn lines_of(alloc: Global, verdicts: &[Verdict]) -> Result<String, AllocError> {
    let mut lines = String::new(alloc);
    for verdict in verdicts {
        lines.push_str(line_of_verdict(alloc, verdict)?.as_str())?;
    }
    Ok(lines)
}

// Cuts each line of a bundle's text.
fn cut_lines(alloc: Global, text: &str, tries: &mut BundleTries) -> Result<(), AllocError> {
    let mut start = 0usize;
    for (before, line) in text.lines().enumerate() {
        let line = Line {
            number: before.saturating_add(1),
            start,
            length: line.len(),
        };
        cut_line(alloc, text, &line, tries)?;
        start = start.saturating_add(line.length).saturating_add(1);
    }
    Ok(())
}

// Cuts a text in one of its lines, from the line's first character to its end.
fn cut_line(
    alloc: Global,
    text: &str,
    line: &Line,
    tries: &mut BundleTries,
) -> Result<(), AllocError> {
    let is_short = text.len() <= CUT_EVERYWHERE;
    for place in 0..line.length.saturating_add(1) {
        if is_short || is_chosen(place, line.length) {
            cut_at(
                alloc,
                text,
                line.start.saturating_add(place),
                line.number,
                tries,
            )?;
        }
    }
    Ok(())
}

// The places of a long text's line: its ends, behind its first character, and its middle.
fn is_chosen(place: usize, length: usize) -> bool {
    place <= 1 || place == length / 2 || place == length
}

// A text that ends within a line is refused at that line. No character is cut in two.
fn cut_at(
    alloc: Global,
    text: &str,
    end: usize,
    number: usize,
    tries: &mut BundleTries,
) -> Result<(), AllocError> {
    if let Some(front) = text.get(..end) {
        tries.cuts = tries.cuts.saturating_add(1);
        tries.note(refused_at(alloc, front)? == Some(number));
    }
    Ok(())
}

// The line at which a text is refused.
fn refused_at(alloc: Global, text: &str) -> Result<Option<usize>, AllocError> {
    match Bundle::decode(alloc, text) {
        Ok(_) => Ok(None),
        Err(DecodeError::NotABundle { line }) => Ok(Some(line)),
        Err(DecodeError::NoMemory) => Err(AllocError),
    }
}
