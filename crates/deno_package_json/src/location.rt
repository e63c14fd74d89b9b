// Where the file of a package.json lies.
ghost use Rattle.std.specs.Prelude.{◌≡◌, IfOk, IsSome, IsTrue, Some};
ghost use Rattle.sugar_path.specs.Parent.{parent_of};
ghost use Rattle.sugar_path.specs.Path.{is_absolute};
ghost use Rattle.deno_package_json.specs.FileUrl.{file_url};

use crate::package_json::PackageJson;
use percent_encoding::{AsciiSet, CONTROLS, ascii_set, percent_encode};
use std::alloc::{AllocError, Global};
use sugar_path::{Path, SugarPath, Text, parent};

// What a file URL escapes of a path, beside all bytes above 127.
const ESCAPED: AsciiSet = ascii_set!(
    CONTROLS
        .add(b' ')
        .add(b'"')
        .add(b'#')
        .add(b'%')
        .add(b'<')
        .add(b'>')
        .add(b'?')
        .add(b'[')
        .add(b'\\')
        .add(b']')
        .add(b'^')
        .add(b'`')
        .add(b'{')
        .add(b'|')
        .add(b'}')
);

impl PackageJson {
    /// The folder of the file. It takes no memory.
    pub fn dir_path(&self) -> &str
        requires { IsSome (parent_of self.now.path) }
        ensures { parent_of self.now.path ≡ Some result.now }
    {
        parent(Path::of_text(self.path.as_str()))
            .unwrap()
            .to_slash()
    }

    /// The file's URL. The path is an absolute one.
    pub fn specifier(&self, alloc: Global) -> Result<Text, AllocError>
        requires { IsTrue (is_absolute self.now.path) }
        ensures { IfOk result (λ url. url ≡ file_url self.now.path) }
    {
        let mut url = String::from_str(alloc, "file://")?;
        percent_encode(self.path.as_str().as_bytes(), ESCAPED).append_to(&mut url)?;
        Ok(Text::from(url))
    }
}
