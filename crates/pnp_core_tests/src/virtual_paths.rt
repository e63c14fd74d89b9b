// What the texts of paths mean, by hand.
use crate::rows::{Told, rows_come};
use pnp_core::{VPath, VPathInfo, physical_place};
use std::alloc::{AllocError, Global};
use std::test::Fail;
use sugar_path::Text;

// The texts of a virtual part: all of it, and the inner path.
fn part_shown(alloc: Global, part: &(Text, Text)) -> Result<String, AllocError> {
    format!(in alloc; "({}; {})", part.0, part.1)
}

// A path by its parts; inside an archive the path there stands last.
fn shown(alloc: Global, path: &VPath) -> Result<String, AllocError> {
    match path {
        VPath::Native(text) => format!(in alloc; "native {text}"),
        VPath::Virtual(info) => {
            let part = part_shown(alloc, &info.virtual_segments)?;
            format!(in alloc; "virtual {} {part}", info.base_path)
        }
        VPath::Zip(info) => {
            let part = match &info.virtual_segments {
                None => String::from_str(alloc, "plain")?,
                Some(part) => part_shown(alloc, part)?,
            };
            format!(in alloc; "zip {} {part} [{}]", info.base_path, info.zip_path)
        }
    }
}

// A path and what it is, on each line.
fn paths() -> &'static str {
    r" = native .
/ = native /
/a/b/ = native /a/b/
.zip = native .zip
/.zip/x = native /.zip/x
/a/foo.zip = native /a/foo.zip
./a/foo.zipp = native a/foo.zipp
./a/foo.zip-bar.zip = native a/foo.zip-bar.zip
./a/foo.zip/bar/qux.zip = zip a/foo.zip plain [bar/qux.zip]
/a/x.zip/__virtual__/h/1/c = zip /a/x.zip plain [__virtual__/h/1/c]
/a\b.zip\c = zip /a/b.zip plain [c]
a.zip/ = zip a.zip plain []
./a/b/__virtual__/foo-abcdef/1/c/d = virtual a (b/__virtual__/foo-abcdef/1/c/d; c/d)
/a/__virtual__ = virtual /a (__virtual__; )
/a/__virtual__/h = virtual /a (__virtual__/h; )
/a/__virtual__/h/0/b/ = virtual /a (__virtual__/h/0/b/; b/)
/a/b/__virtual__/h/x/c = virtual /a/b (__virtual__/h/x/c; c)
/a/b/__virtual__/h/-1/c = virtual /a/b (__virtual__/h/-1/c; c)
/a/b/__virtual__/h/+1/c = virtual /a (b/__virtual__/h/+1/c; c)
/a/b/__virtual__/h/256/c = virtual / (a/b/__virtual__/h/256/c; c)
/a/__virtual__/h/18446744073709551615/c = virtual / (a/__virtual__/h/18446744073709551615/c; c)
/a/__virtual__/h/18446744073709551616/c = virtual /a (__virtual__/h/18446744073709551616/c; c)
/a/__virtual__/x.zip/y.zip/c = virtual /a (__virtual__/x.zip/y.zip/c; c)
/a/__virtual__/h/0/b/__virtual__/g/1/c = virtual /a (__virtual__/h/0/b/__virtual__/g/1/c; b/__virtual__/g/1/c)
C:/a/__virtual__/h/5/b = virtual  (C:/a/__virtual__/h/5/b; b)
/CC:/a/__virtual__/h/5/b = virtual / (CC:/a/__virtual__/h/5/b; b)
/a/b/__virtual__/foo-abcdef/2/c/foo.zip/bar = zip / (a/b/__virtual__/foo-abcdef/2/c/foo.zip; c/foo.zip) [bar]
/C:/app/.yarn/__virtual__/p/4/U/p.zip/i.js = zip /C: (app/.yarn/__virtual__/p/4/U/p.zip; U/p.zip) [i.js]"
}

pub(crate) fn virtual_told(alloc: Global, text: &str) -> Result<Text, Fail> {
    let path = VPath::from(alloc, text)?;
    Ok(Text::from(shown(alloc, &path)?))
}

#[test]
fn paths_fall_into_parts(rt: HostRuntime) -> Result<(), Fail> {
    rows_come(&rt, rt.alloc(), Told::VirtualPath, paths())
}

// Where the bytes of a path lie.
fn physical(alloc: Global, path: &VPath) -> Result<Text, AllocError> {
    match path {
        VPath::Native(text) => text.try_clone(alloc),
        VPath::Virtual(info) => info.physical_base_path(alloc),
        VPath::Zip(info) => info.physical_base_path(alloc),
    }
}

pub(crate) fn base_told(alloc: Global, text: &str) -> Result<Text, Fail> {
    let path = VPath::from(alloc, text)?;
    Ok(physical(alloc, &path)?)
}

fn bases() -> &'static str {
    "./a/b/__virtual__/foo-abcdef/1/c/d = a/c/d
/a/b/__virtual__/foo-abcdef/2/c/foo.zip/bar = /c/foo.zip
/a/foo.zip/bar = /a/foo.zip
/a/__virtual__/h/0 = /a/"
}

#[test]
fn paths_have_a_physical_base(rt: HostRuntime) -> Result<(), Fail> {
    rows_come(&rt, rt.alloc(), Told::Base, bases())
}

pub(crate) fn place_told(alloc: Global, location: &str) -> Result<Text, Fail> {
    match physical_place(alloc, location)? {
        Some(place) => Ok(place.into_text()?),
        None => Ok(Text::of(alloc, "an archive")?),
    }
}

fn places() -> &'static str {
    "/w/p/ = /w/p
/w/.yarn/__virtual__/p-virtual-ab/0/cache/p/ = /w/.yarn/cache/p
/w/.yarn/__virtual__/p-virtual-ab/1/p/ = /w/p
/w/p.zip = /w/p.zip
/w/p.zip/node_modules/p/ = an archive
/w/__virtual__/p-virtual-ab/0/p.zip/node_modules/p/ = an archive"
}

#[test]
fn locations_have_a_place(rt: HostRuntime) -> Result<(), Fail> {
    rows_come(&rt, rt.alloc(), Told::Place, places())
}
