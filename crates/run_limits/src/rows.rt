//! Worked rows, computed from the definition alone: each is the contract of a function that does nothing.

ghost use Rattle.std.specs.Prelude.{◌≡◌, ◌∷◌, []};
ghost use Rattle.run_limits.specs.Ranks.{ranks_of};
ghost use Rattle.run_limits.specs.Rows.{two_accounts, two_users, user_beside};

/// Two accounts of equal shares and usage tie. Of the first, one user has used 4 with half of its shares (5/4), the
/// other 6 (5/6), and the only user of the second has used 10 with all of its shares (1): he comes between them.
pub fn tied_accounts_are_merged()
    ensures { ranks_of two_accounts (4 ∷ 6 ∷ 10 ∷ []) ≡ 3 ∷ 1 ∷ 2 ∷ [] }
{}

/// Two users who used nothing share the rank.
pub fn users_without_usage_tie()
    ensures { ranks_of two_users (0 ∷ 0 ∷ []) ≡ 2 ∷ 2 ∷ [] }
{}

/// A user who ties with an account shares the rank of the best user in it.
pub fn a_user_ties_with_an_account()
    ensures { ranks_of user_beside (0 ∷ 0 ∷ 0 ∷ []) ≡ 3 ∷ 3 ∷ 3 ∷ [] }
{}
