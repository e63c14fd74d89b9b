// Plain owned values that contracts see as lists.

ghost use Rattle.std.specs.Prelude.{◌≡◌, ◌++◌, ◌∷◌, [], IfOk, IfErr, OnOk, OnErr, string_bytes};

use crate::content::Content;
use std::alloc::{AllocError, Global};
use std::marker::Model;
use std::rc::RcSlice;

/// A text, seen as its bytes: its own, or one whose copies share its content.
pub struct Text {
    content: Content,
}

impl Model for Text {
    ghost use Rattle.std.specs.Prelude.{List, ℕ};

    ghost Value = { List ℕ };

    ghost view = { λ t. t.content };
}

impl Drop for Text {
    fn drop(self) {
        let Text { content } = self;
        drop(content);
    }
}

impl Text {
    /// A text of its own.
    pub fn of(alloc: Global, text: &str) -> Result<Text, AllocError>
        ensures { IfOk result (λ t. t ≡ text.now) }
    {
        let content = Content::of(alloc, text)?;
        Ok(Text { content })
    }

    /// A text whose copies share its content.
    pub fn shared(alloc: Global, text: &str) -> Result<Text, AllocError>
        ensures { IfOk result (λ t. t ≡ text.now) }
    {
        let text = String::from_str(alloc, text)?;
        let content = Content::shared(alloc, text)?;
        Ok(Text { content })
    }

    pub fn as_str(&self) -> &str
        ensures { result.now ≡ self.now }
    {
        self.content.as_str()
    }

    /// An equal text. The copy of a shared one shares its content.
    pub fn try_clone(&self, alloc: Global) -> Result<Text, AllocError>
        ensures { IfOk result (λ t. t ≡ self.now) }
    {
        let content = self.content.try_clone(alloc)?;
        Ok(Text { content })
    }

    /// An equal text whose copies share its content. The content itself isn't copied.
    pub fn into_shared(self) -> Result<Text, AllocError>
        ensures { IfOk result (λ t. t ≡ self) }
    {
        let Text { content } = self;
        let content = content.into_shared()?;
        Ok(Text { content })
    }

    /// The text as a string, which is a copy where copies share the content.
    pub fn into_string(self, alloc: Global) -> Result<String, AllocError>
        ensures { IfOk result (λ s. string_bytes s ≡ self) }
    {
        let Text { content } = self;
        content.into_string(alloc)
    }

    // A text that holds this.
    pub(crate) fn holding(content: Content) -> Text
        ensures { result ≡ content }
    {
        Text { content }
    }

    // What it holds.
    pub(crate) fn into_content(self) -> Content
        ensures { result ≡ self }
    {
        let Text { content } = self;
        content
    }
}

impl From<String> for Text {
    ghost from_gives = { λ string text. text ≡ string_bytes string };

    fn from(text: String) -> Text {
        Text {
            content: Content::owned(text),
        }
    }
}

/// Bytes, seen as their list. Copies share the content.
pub struct Bytes {
    bytes: RcSlice<u8, Global>,
}

impl Model for Bytes {
    ghost use Rattle.std.specs.Prelude.{List, ℕ};
    ghost use Rattle.std.specs.Rc.{rc_slice_items};

    ghost Value = { List ℕ };

    ghost view = { λ b. rc_slice_items b.bytes };
}

impl Drop for Bytes {
    fn drop(self) {
        let Bytes { bytes } = self;
        drop(bytes);
    }
}

impl Bytes {
    pub fn of(alloc: Global, bytes: &[u8]) -> Result<Bytes, AllocError>
        ensures { IfOk result (λ b. b ≡ bytes.now) }
    {
        Ok(Bytes {
            bytes: RcSlice::from_slice(alloc, bytes)?,
        })
    }

    /// The bytes of a vector, which aren't copied.
    pub fn from_vec(bytes: Vec<u8>) -> Result<Bytes, AllocError>
        ensures { IfOk result (λ b. b ≡ bytes.items) }
    {
        Ok(Bytes {
            bytes: RcSlice::from_vec(bytes)?,
        })
    }

    pub fn as_slice(&self) -> &[u8]
        ensures { result.now ≡ self.now }
    {
        self.bytes.as_slice()
    }

    /// Equal bytes, which share the content.
    pub fn try_clone(&self, _alloc: Global) -> Result<Bytes, AllocError>
        ensures { IfOk result (λ b. b ≡ self.now) }
    {
        Ok(Bytes {
            bytes: self.bytes.clone()?,
        })
    }
}

/// An owned list, seen as its members in order.
pub struct List<T> {
    members: Vec<T>,
}

impl<T> Model for List<T> {
    ghost use Rattle.std.specs.Prelude as prelude;

    ghost Value = { prelude.List T };

    ghost view = { λ l. l.members.items };
}

impl<T: Drop> Drop for List<T> {
    fn drop(self) {
        let List { members } = self;
        drop(members);
    }
}

impl<T> List<T> {
    /// The empty list.
    pub fn new(alloc: Global) -> List<T>
        ensures { result ≡ [] }
    {
        List {
            members: Vec::new(alloc),
        }
    }

    /// Puts a member at the end. Where no memory is found, the member comes back and the list is as before.
    pub fn push(&mut self, member: T) -> Result<(), (T, AllocError)>
        ensures ok { OnOk result (self.new ≡ self.old ++ member ∷ []) }
        ensures err { OnErr result (self.new ≡ self.old) }
        ensures back { IfErr result (λ e. e.0 ≡ member) }
    {
        match self.members.push(member) {
            Ok(()) => Ok(()),
            Err(e) => Err((e.value, AllocError)),
        }
    }

    pub fn as_slice(&self) -> &[T]
        ensures { result.now ≡ self.now }
    {
        self.members.as_slice()
    }

    // What it holds.
    fn into_members(self) -> Vec<T>
        ensures { result.items ≡ self }
    {
        let List { members } = self;
        members
    }
}

impl<T> From<Vec<T>> for List<T> {
    ghost from_gives = { λ vec list. list ≡ vec.items };

    fn from(members: Vec<T>) -> List<T> {
        List { members }
    }
}

impl<T> From<List<T>> for Vec<T> {
    ghost from_gives = { λ list vec. vec.items ≡ list };

    fn from(list: List<T>) -> Vec<T> {
        list.into_members()
    }
}
