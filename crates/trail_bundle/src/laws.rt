// What the definitions of bundles come to in other words.
ghost use Rattle.trail_bundle.specs.Laws.{OneText, TrailsDecide};

/// Two bundles that have one text are one.
pub fn one_text_for_each_bundle()
    ensures { OneText }
{}

/// What was added of an outcome decides its request: each tree that agrees with the bundle has the outcome's verdict.
pub fn added_trails_decide()
    ensures { TrailsDecide }
{}
