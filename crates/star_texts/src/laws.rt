// Laws, each proved for all texts. The calls have them by their contracts.
ghost use Rattle.star_texts.specs.Laws.{ReplacedReadsBack, RestStandsBetween, StarParts};

/// The parts around the first `*` of a text, and around the only one, make the text with a `*` between them.
pub fn star_parts()
    ensures { StarParts }
{}

/// A rest stands between two texts exactly where the three make the whole.
pub fn rest_stands_between()
    ensures { RestStandsBetween }
{}

/// What replaces the only `*` of a text is read back from between the parts around it.
pub fn replaced_reads_back()
    ensures { ReplacedReadsBack }
{}
