// What a resolver's users may set of the order of search.
use std::marker::Model;
use tree_core::NODE_BUILTINS;

// The names of the builtin modules of Node 20 that need no scheme.
const NODE_20_BUILTINS: &[&str] = &[
    "_http_agent",
    "_http_client",
    "_http_common",
    "_http_incoming",
    "_http_outgoing",
    "_http_server",
    "_stream_duplex",
    "_stream_passthrough",
    "_stream_readable",
    "_stream_transform",
    "_stream_wrap",
    "_stream_writable",
    "_tls_common",
    "_tls_wrap",
    "assert",
    "assert/strict",
    "async_hooks",
    "buffer",
    "child_process",
    "cluster",
    "console",
    "constants",
    "crypto",
    "dgram",
    "diagnostics_channel",
    "dns",
    "dns/promises",
    "domain",
    "events",
    "fs",
    "fs/promises",
    "http",
    "http2",
    "https",
    "inspector",
    "inspector/promises",
    "module",
    "net",
    "os",
    "path",
    "path/posix",
    "path/win32",
    "perf_hooks",
    "process",
    "punycode",
    "querystring",
    "readline",
    "readline/promises",
    "repl",
    "stream",
    "stream/consumers",
    "stream/promises",
    "stream/web",
    "string_decoder",
    "sys",
    "timers",
    "timers/promises",
    "tls",
    "trace_events",
    "tty",
    "url",
    "util",
    "util/types",
    "v8",
    "vm",
    "wasi",
    "worker_threads",
    "zlib",
];

/// What a resolver's users may set of the order of search: the order's own, or Node's. Lists stand in the order in
/// which they are tried.
#[derive(Drop)]
pub struct Conventions {
    endings: &'static [&'static str],
    first_endings: &'static [&'static str],
    source_endings: &'static [(&'static str, &'static [&'static str])],
    main_fields: &'static [&'static str],
    index_names: &'static [&'static str],
    probes_working_folder: bool,
    folders_by_slash: bool,
    empty_entries: bool,
    lenient_packages: bool,
    byte_order_mark: bool,
    malformed_ends_walk: bool,
    unfound_ends_walk: bool,
    modules_in_modules: bool,
    core_modules: &'static [&'static str],
    schemed_modules: Option<&'static [&'static str]>,
}

impl Model for Conventions {
    ghost use Rattle.swc_loader.specs.Conventions as seen;

    ghost Value = { seen.Conventions };

    ghost use Rattle.swc_loader.specs.ConventionsView.{conventions_of, MakeNames};

    ghost view = { conventions_of };

    ghost invariant = { MakeNames };
}

impl Conventions {
    ghost use Rattle.std.specs.Prelude.{◌≡◌};
    ghost use Rattle.swc_loader.specs.Conventions.{the_order, node_order};

    /// Those of this order.
    #[tactic(auto, unfolding(crate::specs::Conventions::the_order, tree_core::specs::Builtins::node_builtins))]
    pub fn of_order() -> Conventions
        ensures { result ≡ the_order }
    {
        Conventions {
            endings: &[".ts", ".tsx", ".js", ".jsx", ".node"],
            first_endings: &[".js"],
            source_endings: &[
                ("js", &[".ts", ".tsx"]),
                ("jsx", &[".ts", ".tsx"]),
                ("mjs", &[".mts"]),
                ("cjs", &[".cts"]),
            ],
            main_fields: &["module", "main"],
            index_names: &["index"],
            probes_working_folder: true,
            folders_by_slash: false,
            empty_entries: true,
            lenient_packages: false,
            byte_order_mark: false,
            malformed_ends_walk: false,
            unfound_ends_walk: false,
            modules_in_modules: true,
            core_modules: NODE_BUILTINS,
            schemed_modules: None,
        }
    }

    /// Those of Node 20's `require`.
    #[tactic(auto, unfolding(crate::specs::Conventions::node_order, crate::specs::Conventions::node_20_builtins))]
    pub fn of_node() -> Conventions
        ensures { result ≡ node_order }
    {
        Conventions {
            endings: &[".js", ".json", ".node"],
            first_endings: &[],
            source_endings: &[],
            main_fields: &["main"],
            index_names: &["index"],
            probes_working_folder: false,
            folders_by_slash: true,
            empty_entries: false,
            lenient_packages: true,
            byte_order_mark: true,
            malformed_ends_walk: true,
            unfound_ends_walk: true,
            modules_in_modules: false,
            core_modules: NODE_20_BUILTINS,
            schemed_modules: Some(&["sea", "test", "test/reporters"]),
        }
    }
}

impl Conventions {
    ghost use Rattle.std.specs.Prelude.{◌≡◌, map, IsTrue};
    ghost use Rattle.std.specs.List.{list_all};
    ghost use Rattle.sugar_path.specs.Path.{has_no_slash};
    ghost use Rattle.swc_loader.specs.Endings.{AreEndings};
    ghost use Rattle.swc_loader.specs.Candidates.{sources_of};
    ghost use Rattle.swc_loader.specs.NodeRows.{is_among, is_schemed};

    // The endings that any name is tried with.
    pub(crate) fn endings(&self) -> &'static [&'static str]
        ensures list { map (λ e. e.now) result.now ≡ self.now.endings }
        ensures endings { AreEndings (map (λ e. e.now) result.now) }
    {
        self.endings
    }

    // The endings that a name without extension is tried with before the name itself.
    pub(crate) fn first_endings(&self) -> &'static [&'static str]
        ensures list { map (λ e. e.now) result.now ≡ self.now.first_endings }
        ensures endings { AreEndings (map (λ e. e.now) result.now) }
    {
        self.first_endings
    }

    // The endings of the sources that an extension may stand for.
    pub(crate) fn sources_of(&self, extension: &str) -> &'static [&'static str]
        ensures list { map (λ e. e.now) result.now ≡ sources_of self.now extension.now }
        ensures endings { AreEndings (map (λ e. e.now) result.now) }
    {
        for (written, sources) in self.source_endings {
            if extension == *written {
                return sources;
            }
        }
        &[]
    }

    // The fields of a package.json that name its entry.
    pub(crate) fn main_fields(&self) -> &'static [&'static str]
        ensures { map (λ f. f.now) result.now ≡ self.now.main_fields }
    {
        self.main_fields
    }

    // The names of a folder's index files, without their endings.
    pub(crate) fn index_names(&self) -> &'static [&'static str]
        ensures list { map (λ n. n.now) result.now ≡ self.now.index_names }
        ensures slashes { IsTrue (list_all has_no_slash (map (λ n. n.now) result.now)) }
    {
        self.index_names
    }

    // Whether a specifier is first looked for from the working folder.
    pub(crate) fn probes_working_folder(&self) -> bool
        ensures { result ≡ self.now.probes_working_folder }
    {
        self.probes_working_folder
    }

    // Whether a specifier that ends in no name has no file candidates.
    pub(crate) fn folders_by_slash(&self) -> bool
        ensures { result ≡ self.now.folders_by_slash }
    {
        self.folders_by_slash
    }

    // Whether an empty entry text is an entry.
    pub(crate) fn empty_entries(&self) -> bool
        ensures { result ≡ self.now.empty_entries }
    {
        self.empty_entries
    }

    // Whether a package.json may hold floats and fields of another kind.
    pub(crate) fn lenient_packages(&self) -> bool
        ensures { result ≡ self.now.lenient_packages }
    {
        self.lenient_packages
    }

    // Whether a byte order mark at the front of a package.json is passed over.
    pub(crate) fn byte_order_mark(&self) -> bool
        ensures { result ≡ self.now.byte_order_mark }
    {
        self.byte_order_mark
    }

    // Whether a malformed package.json ends the walk.
    pub(crate) fn malformed_ends_walk(&self) -> bool
        ensures { result ≡ self.now.malformed_ends_walk }
    {
        self.malformed_ends_walk
    }

    // Whether a package ends the walk of which neither the entry nor an index file is found.
    pub(crate) fn unfound_ends_walk(&self) -> bool
        ensures { result ≡ self.now.unfound_ends_walk }
    {
        self.unfound_ends_walk
    }

    // Whether a folder with the name `node_modules` may have one of its own.
    pub(crate) fn modules_in_modules(&self) -> bool
        ensures { result ≡ self.now.modules_in_modules }
    {
        self.modules_in_modules
    }

    // Whether a name is that of a core module that needs no scheme.
    pub(crate) fn is_core_module(&self, name: &str) -> bool
        ensures { result ≡ is_among self.now.core_modules name.now }
    {
        is_among(self.core_modules, name)
    }

    // Whether a name is that of a core module behind Node's scheme.
    pub(crate) fn is_schemed(&self, name: &str) -> bool
        ensures { result ≡ is_schemed self.now name.now }
    {
        match self.schemed_modules {
            Some(names) => is_among(names, name) || self.is_core_module(name),
            None => true,
        }
    }
}

ghost use Rattle.std.specs.Prelude.{◌≡◌, map};
ghost use Rattle.swc_loader.specs.NodeRows.{is_among};

// Whether a text is one of a list.
fn is_among(texts: &[&str], text: &str) -> bool
    ensures { result ≡ is_among (map (λ t. t.now) texts.now) text.now }
{
    for one in texts {
        if *one == text {
            return true;
        }
    }
    false
}
