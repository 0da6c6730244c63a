//! A law on the text of a saved state.

ghost use Rattle.saved_data.specs.declared.saved.Saved.{Saved};
ghost use Rattle.std.specs.Prelude.{◌≡◌};
ghost use Rattle.state_save.specs.Savable.{IsSavable};
ghost use Rattle.state_save.specs.Saved.{saved_text};

/// One text is that of one saved state at the most (own).
pub fn saved_texts_are_apart()
    ensures { (one other : Saved) → IsSavable one → IsSavable other → saved_text one ≡ saved_text other → one ≡ other }
{}
