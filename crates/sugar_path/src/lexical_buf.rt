// Lexical operations over an owned path, which give its bytes back or edit them.
ghost use Rattle.std.specs.Prelude.{◌≡◌, ◌↔◌, List, ℕ, IfOk, IfErr, IsOk, IsErr, string_bytes};
ghost use Rattle.std.specs.Str.{IsUtf8};
ghost use Rattle.std.specs.Str.Lossy.{utf8_lossy};
ghost use Rattle.sugar_path.specs.Route.{normal};

use crate::normal::is_normal;
use crate::path::{Path, PathBuf};
use crate::places::normal_in;
use crate::sealed::Sealed;
use std::alloc::{AllocError, Global};

/// Lexical operations that take an owned path. A call that fails hands it back.
pub trait SugarPathBuf: Sealed {
    /// The bytes of the path.
    ghost bytes: { Self → List ℕ };

    /// The path without `.`, removable `..` and repeated separators. A trailing separator stays.
    fn into_normalized(self, alloc: Global) -> Result<PathBuf, (PathBuf, AllocError)>
        ensures path { IfOk result (λ p. p ≡ normal (bytes self)) }
        ensures back { IfErr result (λ e. e.0 ≡ bytes self) }

        // A path that is normal takes no memory.
        ensures same { normal (bytes self) ≡ bytes self → IsOk result };

    /// The path as text.
    fn into_slash(self) -> String
        requires { IsUtf8 (bytes self) }
        ensures { string_bytes result ≡ bytes self };

    /// The path as text, if it is UTF-8, and else the path.
    fn try_into_slash(self) -> Result<String, PathBuf>
        ensures text { IfOk result (λ text. string_bytes text ≡ bytes self) }
        ensures back { IfErr result (λ p. p ≡ bytes self) }
        ensures refused { IsErr result ↔ (¬ IsUtf8 (bytes self)) };

    /// The path as text, with U+FFFD in place of what is no UTF-8.
    fn into_slash_lossy(self, alloc: Global) -> Result<String, (PathBuf, AllocError)>
        ensures text { IfOk result (λ text. string_bytes text ≡ utf8_lossy (bytes self)) }
        ensures back { IfErr result (λ e. e.0 ≡ bytes self) }
        ensures same { IsUtf8 (bytes self) → IsOk result };
}

impl SugarPathBuf for PathBuf {
    ghost bytes = { λ p. p };

    fn into_normalized(self, alloc: Global) -> Result<PathBuf, (PathBuf, AllocError)> {
        let bytes = self.as_path().bytes();
        if is_normal(bytes) {
            return Ok(self);
        }
        if bytes.is_empty() {
            return match PathBuf::of(alloc, Path::of_bytes(b".")) {
                Ok(here) => Ok(here),
                Err(fault) => Err((self, fault)),
            };
        }
        Ok(PathBuf::from(normal_in(Vec::from(self))))
    }

    fn into_slash(self) -> String {
        String::from_utf8(Vec::from(self)).unwrap()
    }

    fn try_into_slash(self) -> Result<String, PathBuf> {
        match String::from_utf8(Vec::from(self)) {
            Ok(text) => Ok(text),
            Err(e) => Err(PathBuf::from(e.into_bytes())),
        }
    }

    fn into_slash_lossy(self, alloc: Global) -> Result<String, (PathBuf, AllocError)> {
        let path = match self.try_into_slash() {
            Ok(text) => return Ok(text),
            Err(path) => path,
        };
        match String::from_utf8_lossy(alloc, path.as_path().bytes()) {
            Ok(text) => Ok(text),
            Err(fault) => Err((path, fault)),
        }
    }
}
