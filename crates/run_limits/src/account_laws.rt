//! What holds of all accounts. A law is the contract of a function that does nothing.

ghost use Rattle.std.specs.Prelude.{◌≡◌, ℕ, ◌<◌, true, List, Option, Some, length, option_map, slice_get};
ghost use Rattle.run_limits.specs.declared.record.AssocRecord.{AssocRecord};
ghost use Rattle.run_limits.specs.declared.record.QosRecord.{QosRecord};
ghost use Rattle.run_limits.specs.Accounts.{are_of_one_user, is_of_user, is_same_number, place_meant, qos_meant, user_number};

/// Associations are of one user exactly where they share a number.
pub fn numbers_tell_users_apart()
    ensures { (assocs : List AssocRecord) (one other : ℕ)
        → are_of_one_user assocs one other ≡ is_same_number (user_number assocs one) (user_number assocs other) }
{}

/// The association that a user means is one of his, and the quality of service that is meant is there.
pub fn what_is_meant_is_there()
    ensures assoc { (assocs : List AssocRecord) (user : List ℕ) (account : Option (List ℕ)) (place : ℕ)
        → place_meant assocs user account ≡ Some place
        → option_map (is_of_user user) (slice_get assocs place) ≡ Some true }
    ensures qos { (qos : List QosRecord) (name : Option (List ℕ)) (place : ℕ)
        → qos_meant qos name ≡ Some place → place < length qos }
{}
