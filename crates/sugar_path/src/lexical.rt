// Lexical operations over a borrowed path, which never ask the file system.
ghost use Rattle.std.specs.Prelude.{
  ◌≡◌,
  ◌↔◌,
  ◌⊎◌,
  ◌||◌,
  ◌∷◌,
  [],
  List,
  ℕ,
  IfOk,
  IsOk,
  IfSome,
  IsNone,
  OnSome,
  IsTrue,
  false,
  not,
};
ghost use Rattle.std.specs.Str.{IsUtf8};
ghost use Rattle.std.specs.Str.Lossy.{utf8_lossy};
ghost use Rattle.std.specs.Cow.{cow_str_bytes, IsBorrowedStr};
ghost use Rattle.sugar_path.specs.Path.{is_absolute};
ghost use Rattle.sugar_path.specs.Route.{place, normal, from_folder};
ghost use Rattle.sugar_path.specs.Borrowed.{IsNormalBorrowed, IsPlaceBorrowed, IsWayBorrowed};
ghost use Rattle.sugar_path.specs.Relative.{needs_folder, relative_from};
ghost use Rattle.sugar_path.specs.PathTypes.{
  path_bytes,
  cow_bytes,
  is_borrowed,
  folder_of,
  is_known,
  absolute_if_known,
};

use crate::borrowed::borrowed_way;
use crate::faults::TryError;
use crate::normal::{is_here, is_normal, is_place, needs_folder};
use crate::path::{CwdAnswer, Path, PathBuf, PathCow};
use crate::places::{normal_of, place_below, place_of};
use crate::reading::is_absolute;
use crate::sealed::Sealed;
use crate::ways::relative_of;
use std::alloc::{AllocError, Global};
use std::borrow::CowStr;

/// Lexical operations over a borrowed path. Each call reads the path's bytes alone, with `/` as separator.
pub trait SugarPath<'a>: Sealed {
    /// The bytes of the path.
    ghost bytes: { Self → List ℕ };

    /// The path without `.`, removable `..` and repeated separators. A trailing separator stays.
    fn normalize(self, alloc: Global) -> Result<PathCow<'a>, AllocError>
        ensures path { IfOk result (λ p. cow_bytes p ≡ normal (bytes self)) }
        ensures borrowed { IfOk result (λ p. IsTrue (is_borrowed p) ↔
            IsNormalBorrowed (bytes self)) }

        // What is borrowed takes no memory.
        ensures without_memory { IsNormalBorrowed (bytes self) → IsOk result };

    /// The path from the root: itself, or behind the folder `cwd`, without `.`, `..`, repeated or trailing separators.
    fn absolutize_with(self, alloc: Global, cwd: Path<'_>) -> Result<PathCow<'a>, AllocError>
        requires { IsTrue (is_absolute (bytes self) || is_absolute (path_bytes cwd)) }
        ensures path { IfOk result (λ p.
            cow_bytes p ≡ from_folder (path_bytes cwd.entry) (bytes self)) }
        ensures borrowed { IfOk result (λ p. IsTrue (is_borrowed p) ↔
            IsPlaceBorrowed (bytes self)) }
        ensures without_memory { IsPlaceBorrowed (bytes self) → IsOk result };

    /// As `absolutize_with`, where the working folder is known if it is needed.
    fn absolutize(self, alloc: Global, cwd: &CwdAnswer) -> Result<PathCow<'a>, AllocError>
        requires { IsTrue (is_absolute (bytes self) || is_absolute (folder_of cwd.now)) }
        ensures path { IfOk result (λ p.
            cow_bytes p ≡ from_folder (folder_of cwd.now) (bytes self)) }
        ensures borrowed { IfOk result (λ p. IsTrue (is_borrowed p) ↔
            IsPlaceBorrowed (bytes self)) }
        ensures without_memory { IsPlaceBorrowed (bytes self) → IsOk result };

    /// As `absolutize_with`, with a fault where the working folder is needed and unknown.
    fn try_absolutize(self, alloc: Global, cwd: &CwdAnswer) -> Result<PathCow<'a>, TryError>
        requires { IsTrue (absolute_if_known cwd.now) }
        ensures path { IfOk result (λ p.
            cow_bytes p ≡ from_folder (folder_of cwd.now) (bytes self)) }
        ensures borrowed { IfOk result (λ p. IsTrue (is_borrowed p) ↔
            IsPlaceBorrowed (bytes self)) }
        ensures without_memory { IsPlaceBorrowed (bytes self) → IsOk result }
        ensures no_cwd { (result ≡ Err TryError.NoCwd) ↔
            (IsTrue (not (is_absolute (bytes self))) × IsTrue (not (is_known cwd.now))) };

    /// The path from `base` to this one: `..` out of the folders of `base`, and then the names. It is empty between two
    /// paths of one place, and borrowed where it stands at the end of this path.
    fn relative_with(
        self,
        alloc: Global,
        base: Path<'_>,
        cwd: Path<'_>,
    ) -> Result<PathCow<'a>, AllocError>
        requires { IsTrue (
            not (needs_folder (path_bytes base) (bytes self)) || is_absolute (path_bytes cwd)) }
        ensures path { IfOk result (λ p. cow_bytes p ≡
            relative_from (path_bytes cwd.entry) (path_bytes base.entry) (bytes self)) }
        ensures borrowed { IfOk result (λ p. IsTrue (is_borrowed p) ↔
            IsWayBorrowed (path_bytes base.entry) (bytes self)) }
        ensures without_memory { IsWayBorrowed (path_bytes base.entry) (bytes self) → IsOk result };

    /// As `relative_with`, where the working folder is known if it is needed.
    fn relative(
        self,
        alloc: Global,
        base: Path<'_>,
        cwd: &CwdAnswer,
    ) -> Result<PathCow<'a>, AllocError>
        requires { IsTrue (
            not (needs_folder (path_bytes base) (bytes self)) || is_absolute (folder_of cwd.now)) }
        ensures path { IfOk result (λ p. cow_bytes p ≡
            relative_from (folder_of cwd.now) (path_bytes base.entry) (bytes self)) }
        ensures borrowed { IfOk result (λ p. IsTrue (is_borrowed p) ↔
            IsWayBorrowed (path_bytes base.entry) (bytes self)) }
        ensures without_memory { IsWayBorrowed (path_bytes base.entry) (bytes self) → IsOk result };

    /// As `relative_with`, with a fault where the working folder is needed and unknown.
    fn try_relative(
        self,
        alloc: Global,
        base: Path<'_>,
        cwd: &CwdAnswer,
    ) -> Result<PathCow<'a>, TryError>
        requires { IsTrue (absolute_if_known cwd.now) }
        ensures path { IfOk result (λ p. cow_bytes p ≡
            relative_from (folder_of cwd.now) (path_bytes base.entry) (bytes self)) }
        ensures borrowed { IfOk result (λ p. IsTrue (is_borrowed p) ↔
            IsWayBorrowed (path_bytes base.entry) (bytes self)) }
        ensures without_memory { IsWayBorrowed (path_bytes base.entry) (bytes self) → IsOk result }
        ensures no_cwd { (result ≡ Err TryError.NoCwd) ↔
            (IsTrue (needs_folder (path_bytes base.entry) (bytes self)) ×
            IsTrue (not (is_known cwd.now))) };

    /// The path as text.
    fn to_slash(self) -> &'a str
        requires { IsUtf8 (bytes self) }
        ensures { result.now ≡ bytes self };

    /// The path as text, if it is UTF-8.
    fn try_to_slash(self) -> Option<&'a str>
        ensures text { IfSome result (λ text. text.now ≡ bytes self) }
        ensures utf8 { OnSome result (IsUtf8 (bytes self)) }
        ensures none { IsNone result ↔ (¬ IsUtf8 (bytes self)) };

    /// The path as text, with U+FFFD in place of what is no UTF-8.
    fn to_slash_lossy(self, alloc: Global) -> Result<CowStr<'a>, AllocError>
        ensures text { IfOk result (λ text. cow_str_bytes text ≡ utf8_lossy (bytes self)) }
        ensures borrowed { IfOk result (λ text. IsBorrowedStr text ↔ IsUtf8 (bytes self)) }
        ensures without_memory { IsUtf8 (bytes self) → IsOk result };

    fn as_path(self) -> Path<'a>
        ensures { path_bytes result ≡ bytes self };
}

impl<'a> SugarPath<'a> for Path<'a> {
    ghost bytes = { path_bytes };

    fn normalize(self, alloc: Global) -> Result<PathCow<'a>, AllocError> {
        let bytes = self.bytes();
        if is_normal(bytes) && std::str::from_utf8(bytes).is_ok() {
            return Ok(PathCow::Borrowed(self));
        }
        if is_here(bytes) {
            return Ok(PathCow::Borrowed(Path::of_bytes(b".")));
        }
        Ok(PathCow::Owned(PathBuf::from(normal_of(alloc, bytes)?)))
    }

    fn absolutize_with(self, alloc: Global, cwd: Path<'_>) -> Result<PathCow<'a>, AllocError> {
        let bytes = self.bytes();
        if !is_absolute(bytes) {
            let place = place_below(alloc, cwd.bytes(), bytes)?;
            return Ok(PathCow::Owned(PathBuf::from(place)));
        }
        if is_place(bytes) && std::str::from_utf8(bytes).is_ok() {
            return Ok(PathCow::Borrowed(self));
        }
        Ok(PathCow::Owned(PathBuf::from(place_of(alloc, bytes)?)))
    }

    fn absolutize(self, alloc: Global, cwd: &CwdAnswer) -> Result<PathCow<'a>, AllocError> {
        match cwd {
            CwdAnswer::Known(folder) => self.absolutize_with(alloc, folder.as_path()),
            CwdAnswer::Unknown => self.absolutize_with(alloc, Path::of_bytes(b"")),
        }
    }

    fn try_absolutize(self, alloc: Global, cwd: &CwdAnswer) -> Result<PathCow<'a>, TryError> {
        match cwd {
            CwdAnswer::Known(folder) => Ok(self.absolutize_with(alloc, folder.as_path())?),
            CwdAnswer::Unknown if !is_absolute(self.bytes()) => Err(TryError::NoCwd),
            CwdAnswer::Unknown => Ok(self.absolutize_with(alloc, Path::of_bytes(b""))?),
        }
    }

    fn relative_with(
        self,
        alloc: Global,
        base: Path<'_>,
        cwd: Path<'_>,
    ) -> Result<PathCow<'a>, AllocError> {
        if let Some(way) = borrowed_way(base.bytes(), self.bytes()) {
            return Ok(PathCow::Borrowed(Path::of_bytes(way)));
        }
        let way = relative_of(alloc, cwd.bytes(), base.bytes(), self.bytes())?;
        Ok(PathCow::Owned(PathBuf::from(way)))
    }

    fn relative(
        self,
        alloc: Global,
        base: Path<'_>,
        cwd: &CwdAnswer,
    ) -> Result<PathCow<'a>, AllocError> {
        match cwd {
            CwdAnswer::Known(folder) => self.relative_with(alloc, base, folder.as_path()),
            CwdAnswer::Unknown => self.relative_with(alloc, base, Path::of_bytes(b"")),
        }
    }

    fn try_relative(
        self,
        alloc: Global,
        base: Path<'_>,
        cwd: &CwdAnswer,
    ) -> Result<PathCow<'a>, TryError> {
        match cwd {
            CwdAnswer::Known(folder) => Ok(self.relative_with(alloc, base, folder.as_path())?),
            CwdAnswer::Unknown if needs_folder(base.bytes(), self.bytes()) => Err(TryError::NoCwd),
            CwdAnswer::Unknown => Ok(self.relative_with(alloc, base, Path::of_bytes(b""))?),
        }
    }

    fn to_slash(self) -> &'a str {
        std::str::from_utf8(self.bytes()).unwrap()
    }

    fn try_to_slash(self) -> Option<&'a str> {
        std::str::from_utf8(self.bytes()).ok()
    }

    fn to_slash_lossy(self, alloc: Global) -> Result<CowStr<'a>, AllocError> {
        let bytes = self.bytes();
        match std::str::from_utf8(bytes) {
            Ok(text) => Ok(CowStr::Borrowed(text)),
            Err(_) => Ok(CowStr::Owned(String::from_utf8_lossy(alloc, bytes)?)),
        }
    }

    fn as_path(self) -> Path<'a> {
        self
    }
}
