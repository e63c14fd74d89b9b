// Laws of the reading, each proved for all texts. `parse_str` has them by its contract.
ghost use Rattle.yarn_lock_parser.specs.Laws.{
  EntriesAreTheText,
  EntriesEndWithEmptyLines,
  UnreadableByOne,
  SpoiltByOne,
  LastFlagCounts,
  LastItemCounts,
};

/// The texts that entries are read from, joined, are the text that they are cut from.
pub fn entries_are_the_text()
    ensures { EntriesAreTheText }
{}

/// Each text of an entry but the last one ends with its empty line.
pub fn entries_end_with_empty_lines()
    ensures { EntriesEndWithEmptyLines }
{}

/// What is said of a dependency is unreadable exactly where some property `optional` is neither `true` nor `false`.
pub fn unreadable_by_one()
    ensures { UnreadableByOne }
{}

/// The items of an entry are spoilt, for which it is refused as `Optional`, exactly where some item of them says
/// something unreadable of a dependency.
pub fn spoilt_by_one()
    ensures { SpoiltByOne }
{}

/// Of readable properties `optional` the last one counts.
pub fn last_flag_counts()
    ensures { LastFlagCounts }
{}

/// Each field of an entry is what the last item of its kind says, whatever stands around it; where there is no such
/// item it is empty.
pub fn last_item_counts()
    ensures { LastItemCounts }
{}
