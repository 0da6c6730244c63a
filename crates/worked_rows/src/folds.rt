//! Laws on the groups and runs into which names of hosts are folded.

ghost use Rattle.worked_rows.specs.Folds;

/// What is folded are the names of the list, each once, in byte order (own).
pub fn names_are_put_in_order()
    ensures kept { Folds.NamesAreKept }
    ensures ordered { Folds.NamesAreInOrder }
{}

/// The groups hold the names and no others; those of a group differ in their numbers alone, and no two groups with
/// digits could be one ("hostlist" in scontrol(1); which names make a group is own).
pub fn groups_are_of_names_alike()
    ensures names { Folds.GroupsHoldTheNames }
    ensures alike { Folds.GroupsAreAlike }
    ensures alone { Folds.NamesWithoutDigits }
    ensures apart { Folds.GroupsAreApart }
{}

/// Groups come in the order of their first names, and in a group of names in byte order the numbers rise (own).
pub fn groups_keep_the_order()
    ensures order { Folds.GroupsKeepOrder }
    ensures rise { Folds.NumbersRise }
{}

/// Runs are stretches of neighbours, each as long as it can be ("hostlist" in scontrol(1); that none is cut is own).
pub fn runs_are_the_longest()
    ensures numbers { Folds.RunsHoldTheNumbers }
    ensures up { Folds.RunsGoUp }
    ensures names { Folds.RunsAreOfNames }
    ensures longest { Folds.RunsAreLongest }
{}
