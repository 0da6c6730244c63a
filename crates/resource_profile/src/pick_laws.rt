// What holds of every choice. Each law is the contract of a function that does nothing.
ghost use Rattle.std.specs.Prelude.{◌≡◌, ℕ, ◌≤◌, List, Some, None, sum, take};
ghost use Rattle.resource_profile.specs.declared.picking.Need.{Need};
ghost use Rattle.resource_profile.specs.Sets.{capacity, Fits, IsChosen, AsksNoMore};
ghost use Rattle.resource_profile.specs.Choosing.{chosen};

/// The choice as a function gives the set that fits and that no other fitting one is before; it gives none exactly
/// where no set fits.
pub fn chosen_is_first()
    ensures some { (caps : List ℕ) (need : Need) (set : List ℕ) → chosen caps need ≡ Some set → IsChosen caps need set }
    ensures none { (caps : List ℕ) (need : Need) (set : List ℕ) → chosen caps need ≡ None → ¬ Fits caps need set }
    ensures is { (caps : List ℕ) (need : Need) (set : List ℕ) → IsChosen caps need set → chosen caps need ≡ Some set }
{}

/// All the places together give what a set that fits gives.
pub fn fitting_sets_are_within()
    ensures { (caps : List ℕ) (need : Need) (set : List ℕ) → Fits caps need set → need.tasks ≤ sum caps }
{}

/// Where a set fits a need, its first places fit one that asks no more, also where some place gives more.
pub fn lesser_needs_fit()
    ensures { (caps wider : List ℕ) (need lesser : Need) (set : List ℕ)
        → ((place : ℕ) → capacity caps place ≤ capacity wider place) → AsksNoMore lesser need
        → Fits caps need set → Fits wider lesser (take lesser.tasks set) }
{}
