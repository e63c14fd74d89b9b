// What a text holds: a short text in the value itself, a string, or the front of one whose copies share it.
ghost use Rattle.std.specs.Prelude.{◌≡◌, ◌<◌, ◌∷◌, ◌++◌, [], IfOk, OnOk, OnErr, length, get_or, take, string_bytes};
ghost use Rattle.std.specs.Rc.{rc_str_bytes};
ghost use Rattle.std.specs.Str.{IsCharBoundary};

use arrayvec::ArrayString;
use std::alloc::{AllocError, Global};
use std::marker::Model;
use std::rc::RcStr;

// The content of a text, seen as its bytes.
#[derive(Drop)]
pub(crate) struct Content {
    kept: Kept,
}

#[derive(Drop)]
enum Kept {
    Short(Short),
    Owned(String),
    Shared(Front),
}

// A text of at most 24 bytes, which lie in the value itself.
#[derive(Drop)]
struct Short {
    alloc: Global,
    text: ArrayString<24>,
}

// The front of a shared text.
#[derive(Drop)]
struct Front {
    alloc: Global,
    whole: RcStr<Global>,
    end: usize,
    ghost cut: { IsCharBoundary (rc_str_bytes whole) end },
}

impl Model for Content {
    ghost use Rattle.std.specs.Prelude.{List, ℕ};
    ghost use Rattle.sugar_path.specs.Content.{kept_bytes};

    ghost Value = { List ℕ };

    ghost view = { λ c. kept_bytes c.kept };
}

impl Content {
    // What a string holds.
    pub(crate) fn owned(text: String) -> Content
        ensures { result ≡ string_bytes text }
    {
        Content {
            kept: Kept::Owned(text),
        }
    }

    // A copy of a text, which takes no memory where the text is short.
    pub(crate) fn of(alloc: Global, text: &str) -> Result<Content, AllocError>
        ensures { IfOk result (λ c. c ≡ text.now) }
    {
        match ArrayString::from(text) {
            Ok(text) => Ok(Content {
                kept: Kept::Short(Short { alloc, text }),
            }),
            Err(_) => Ok(Content::owned(String::from_str(alloc, text)?)),
        }
    }

    // What a string holds, so that copies share it.
    pub(crate) fn shared(alloc: Global, text: String) -> Result<Content, AllocError>
        ensures { IfOk result (λ c. c ≡ string_bytes text) }
    {
        let end = text.len();
        let whole = RcStr::from_string(text)?;
        Ok(Content {
            kept: Kept::Shared(Front { alloc, whole, end }),
        })
    }

    pub(crate) fn as_str(&self) -> &str
        ensures { result.now ≡ self.now }
    {
        match &self.kept {
            Kept::Short(short) => short.text.as_str(),
            Kept::Owned(text) => text.as_str(),
            Kept::Shared(front) => front.as_str(),
        }
    }

    // An equal content. The copy of a shared one shares it.
    pub(crate) fn try_clone(&self, alloc: Global) -> Result<Content, AllocError>
        ensures { IfOk result (λ c. c ≡ self.now) }
    {
        match &self.kept {
            Kept::Short(short) => Content::of(alloc, short.text.as_str()),
            Kept::Owned(text) => Content::of(alloc, text.as_str()),
            Kept::Shared(front) => Ok(Content {
                kept: Kept::Shared(front.try_clone()?),
            }),
        }
    }

    // An equal content that copies share.
    pub(crate) fn into_shared(self) -> Result<Content, AllocError>
        ensures { IfOk result (λ c. c ≡ self) }
    {
        let Content { kept } = self;
        match kept {
            Kept::Owned(text) => {
                let alloc = *text.allocator();
                Content::shared(alloc, text)
            }
            kept => Ok(Content { kept }),
        }
    }

    // A string of its own: the one that is held, or a copy.
    pub(crate) fn into_string(self, alloc: Global) -> Result<String, AllocError>
        ensures { IfOk result (λ s. string_bytes s ≡ self) }
    {
        let Content { kept } = self;
        match kept {
            Kept::Short(short) => String::from_str(alloc, short.text.as_str()),
            Kept::Owned(text) => Ok(text),
            Kept::Shared(front) => String::from_str(alloc, front.as_str()),
        }
    }

    // Puts a slash and a name at the end.
    pub(crate) fn push_name(&mut self, name: &str) -> Result<(), AllocError>
        ensures ok { OnOk result (self.new ≡ self.old ++ 47 ∷ name.now) }
        ensures err { OnErr result (self.new ≡ self.old) }
    {
        match &mut self.kept {
            Kept::Short(short) => {
                let grown = with_name(short.alloc, short.text.as_str(), name)?;
                self.kept = Kept::Owned(grown);
            }
            Kept::Owned(text) => push_name(text, name)?,
            Kept::Shared(front) => {
                let grown = with_name(front.alloc, front.as_str(), name)?;
                self.kept = Kept::Owned(grown);
            }
        }
        Ok(())
    }

    // Takes off what stands from a slash on.
    pub(crate) fn cut_at(&mut self, at: usize)
        requires within { at < length self.old }
        requires slash { get_or self.old at 0 ≡ 47 }
        ensures { self.new ≡ take at self.old }
    {
        match &mut self.kept {
            Kept::Short(short) => short.text.truncate(at),
            Kept::Owned(text) => text.truncate(at),
            Kept::Shared(front) => front.end = at,
        }
    }
}

impl Front {
    ghost use Rattle.sugar_path.specs.Content.{front_bytes};

    fn as_str(&self) -> &str
        ensures { result.now ≡ front_bytes self.now }
    {
        &self.whole.as_str()[..self.end]
    }

    fn try_clone(&self) -> Result<Front, AllocError>
        ensures { IfOk result (λ f. front_bytes f ≡ front_bytes self.now) }
    {
        Ok(Front {
            alloc: self.alloc,
            whole: self.whole.clone()?,
            end: self.end,
        })
    }
}

// A string of a front with a slash and a name behind it.
fn with_name(alloc: Global, front: &str, name: &str) -> Result<String, AllocError>
    ensures { IfOk result (λ s. string_bytes s ≡ front.now ++ 47 ∷ name.now) }
{
    let room = front.len().saturating_add(name.len()).saturating_add(1);
    let mut grown = String::with_capacity(alloc, room)?;
    grown.push_str(front)?;
    push_name(&mut grown, name)?;
    Ok(grown)
}

// Puts a slash and a name at the end of a string.
fn push_name(text: &mut String, name: &str) -> Result<(), AllocError>
    ensures ok { OnOk result (string_bytes text.new ≡ string_bytes text.old ++ 47 ∷ name.now) }
    ensures err { OnErr result (string_bytes text.new ≡ string_bytes text.old) }
{
    text.reserve(name.len() + 1)?;
    text.push_str("/")?;
    text.push_str(name)?;
    Ok(())
}
