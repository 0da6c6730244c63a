// What holds of every profile. Each law is the contract of a function that does nothing.
ghost use Rattle.std.specs.Prelude.{List, [], ◌∷◌, ◌++◌};
ghost use Rattle.resource_profile.specs.declared.Hold.{Hold};
ghost use Rattle.resource_profile.specs.declared.NodeRoom.{NodeRoom};
ghost use Rattle.resource_profile.specs.Profiles.{AreWithin, HasFree};

/// Where the holds stay within the rooms, they do so with one more of what is free all over its window.
pub fn free_amounts_fit()
    ensures { (rooms : List NodeRoom) (holds : List Hold) (hold : Hold)
        → AreWithin rooms holds → HasFree rooms holds hold → AreWithin rooms (holds ++ hold ∷ []) }
{}
