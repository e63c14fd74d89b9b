// Laws of the reading, each proved for all texts.
ghost use Rattle.npm_req.specs.Grammar.{PartialsAgree, PartsAgree, RangesAgree, SemversAgree, VersionsAgree};

/// A text of Semantic Versioning is read exactly where the grammar of the crate `semver` has it, with numbers that npm
/// can count.
pub fn semvers_agree()
    ensures { SemversAgree }
{}

/// A version is read exactly where the grammar has it.
pub fn versions_agree()
    ensures { VersionsAgree }
{}

/// A partial version is read exactly where the grammar has it.
pub fn partials_agree()
    ensures { PartialsAgree }
{}

/// A part of a range is read exactly where the grammar has it.
pub fn parts_agree()
    ensures { PartsAgree }
{}

/// A range is read exactly where the grammar has it.
pub fn ranges_agree()
    ensures { RangesAgree }
{}
