// Laws of the path operations, each proved for all paths. The calls have them by their contracts.
ghost use Rattle.sugar_path.specs.Laws.{
  NormalTwice,
  RelativeLeadsThere,
  RelativeEmptyAtOnePlace,
  ComponentsLeadThere,
  ParentLeavesLast,
  RootHasNoParent,
  PlaceIsClean,
  JoinIsStds,
  ComponentsAreStds,
  ParentIsStds,
};

/// A normal form is its own normal form. So `normalize` answers borrowed what it answered, where that is UTF-8.
pub fn normal_twice()
    ensures { NormalTwice }
{}

/// Read from an absolute folder, a base with the relative path behind it leads to the target of that relative path.
pub fn relative_leads_there()
    ensures { RelativeLeadsThere }
{}

/// Read from an absolute folder, the relative path between two paths is empty exactly where both lead to one place.
pub fn relative_empty_at_one_place()
    ensures { RelativeEmptyAtOnePlace }
{}

/// The components of a path, read one after the other, lead where the path leads.
pub fn components_lead_there()
    ensures { ComponentsLeadThere }
{}

/// A parent has the components of its path but the last one.
pub fn parent_leaves_last()
    ensures { ParentLeavesLast }
{}

/// A path has no parent exactly where it has no component but the root.
pub fn root_has_no_parent()
    ensures { RootHasNoParent }
{}

/// Read from a clean folder, the place of a text is the clean path that it names: `absolutize_with` and `clean_text`
/// give one text.
pub fn place_is_clean()
    ensures { PlaceIsClean }
{}

/// One path behind another is what std's paths give.
pub fn join_is_stds()
    ensures { JoinIsStds }
{}

/// The components of a path are those of std's paths.
pub fn components_are_stds()
    ensures { ComponentsAreStds }
{}

/// The parent of a path is what std's paths give.
pub fn parent_is_stds()
    ensures { ParentIsStds }
{}
