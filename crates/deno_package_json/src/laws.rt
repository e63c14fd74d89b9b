// Laws of the loads, each proved for all packages.
ghost use Rattle.deno_package_json.specs.LoadedAgain.{LoadsAgain, TextLoadsAgain};

/// A package that was loaded is loaded from its JSON as itself, but for an absent `bin`, which is null then.
pub fn loads_again()
    ensures { LoadsAgain }
{}

/// So is the text that is written for that JSON, where the text reads back.
pub fn text_loads_again()
    ensures { TextLoadsAgain }
{}
