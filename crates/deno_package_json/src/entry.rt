// The main module of a package.
ghost use Rattle.std.specs.Prelude.{◌≡◌, option_map};
ghost use Rattle.deno_package_json.specs.Entry.{main_of, named_main, unless_empty};
ghost use Rattle.deno_package_json.specs.Package.{package_of};

use crate::kind::NodeModuleKind;
use crate::package_json::PackageJson;
use sugar_path::Text;

impl PackageJson {
    /// The text that names the main module, without the white space around it. It takes no memory.
    pub fn main(&self, referrer_kind: NodeModuleKind) -> Option<&str>
        ensures { option_map (λ text. text.now) result
            ≡ main_of referrer_kind (package_of self.now) }
    {
        match self.named_main(referrer_kind) {
            Some(text) => unless_empty(text.as_str().trim()),
            None => None,
        }
    }

    fn named_main(&self, referrer_kind: NodeModuleKind) -> Option<&Text>
        ensures { option_map (λ text. text.now) result
            ≡ named_main referrer_kind (package_of self.now) }
    {
        match referrer_kind {
            NodeModuleKind::Esm => if self.typ.as_str() == "module" {
                self.module.as_ref().or(self.main.as_ref())
            } else {
                self.main.as_ref()
            },
            NodeModuleKind::Cjs => self.main.as_ref(),
        }
    }
}

fn unless_empty(text: &str) -> Option<&str>
    ensures { option_map (λ text. text.now) result ≡ unless_empty text.now }
{
    if text.is_empty() { None } else { Some(text) }
}
