// Runs of parts at a text's front.
ghost use Rattle.std.specs.Prelude.{◌≡◌, ◌≤◌, length};
ghost use Rattle.es_imports.specs.Parts.{part_len};
ghost use Rattle.es_imports.specs.Runs.{run};

use crate::part::{Part, part_len};

// How many bytes the longest run of such parts takes at the front.
#[inline(always)]
pub(crate) fn run_len(part: Part, text: &[u8]) -> usize
    ensures value { result ≡ run (part_len part) text.now }
    ensures within { result ≤ length text.now }
{
    let mut at = 0;
    loop {
        let len = part_len(part, &text[at..]);
        if len == 0 {
            return at;
        }
        at += len;
    }
}
