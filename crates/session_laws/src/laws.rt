//! What an input says of the end of a session that reads it.

ghost use Rattle.std.specs.Prelude.{◌≡◌, ℕ, List, Some, take};
ghost use Rattle.block_frame.specs.declared.form.Form.{Form};
ghost use Rattle.block_frame.specs.Grammar.{blocks_of};
ghost use Rattle.ctl_desk.specs.Desk.{Sight};
ghost use Rattle.ctl_session.specs.declared.session.Ended.{Ended};
ghost use Rattle.ctl_session.specs.declared.session.How.{How};
ghost use Rattle.ctl_session.specs.Clock.{Timing};
ghost use Rattle.ctl_session.specs.Session.{Ending, IsServed, most_blocks};
ghost use Rattle.session_laws.specs.Inputs.{EndsSo, IsOfInput, Says};
ghost use Rattle.slurm_io.specs.Faults.{CountsNone};
ghost use Rattle.slurm_io.specs.Wire.{Wire};

use block_frame::{
    bad_texts_stay, blocks_are_cut_once, blocks_go_first, kinds_are_apart, nothing_is_partial,
    texts_are_cut,
};

/// Every input says one end.
pub fn inputs_say_one_end()
    ensures some { (form : Form) (bytes : List ℕ) → (said : How) × Says form bytes said }
    ensures one { (form : Form) (bytes : List ℕ) (said other : How)
        → Says form bytes said → Says form bytes other → said ≡ other }
{
    texts_are_cut();
    blocks_go_first();
    blocks_are_cut_once();
    kinds_are_apart();
    bad_texts_stay();
    nothing_is_partial();
}

/// Where a link tells its bytes and no read or write of it fails, a session over it ends as these say, unless memory is
/// wanting or a shutdown ends it before: that is the only other way, and in the plain form there is none. Whatever fails,
/// an end that an input may say comes only where this one says it; and then the session has answered each of its blocks,
/// as many as one may.
pub fn sessions_end_as_their_input_says()
    ensures there { (form : Form) (old new : Wire) (desk desk' : Sight) (clock clock' : Timing) (ended : Ended)
        (e : Ending) (bytes : List ℕ) (said : How)
        → old.left ≡ Some bytes → CountsNone old.reads new.reads → CountsNone old.writes new.writes
        → IsServed form old new desk desk' clock clock' ended e
        → Says form bytes said → EndsSo form said ended.how }
    ensures only { (form : Form) (old new : Wire) (desk desk' : Sight) (clock clock' : Timing) (ended : Ended)
        (e : Ending) (bytes : List ℕ)
        → old.left ≡ Some bytes → IsServed form old new desk desk' clock clock' ended e
        → IsOfInput ended.how → Says form bytes ended.how }
    ensures all { (form : Form) (old new : Wire) (desk desk' : Sight) (clock clock' : Timing) (ended : Ended)
        (e : Ending) (bytes : List ℕ)
        → old.left ≡ Some bytes → IsServed form old new desk desk' clock clock' ended e
        → IsOfInput ended.how → e.blocks ≡ take most_blocks (blocks_of form bytes) }
{
    texts_are_cut();
    blocks_go_first();
    blocks_are_cut_once();
    kinds_are_apart();
    bad_texts_stay();
    nothing_is_partial();
}
