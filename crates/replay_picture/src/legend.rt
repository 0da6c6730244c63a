//! The legend.

ghost use Rattle.std.specs.Prelude.{◌≡◌, ◌++◌, ◌<◌, ◌≤◌, List, OnOk, length, take};
ghost use Rattle.replay_picture.specs.Legend.{entries_text, entry_text, legend_text};

use crate::bars::push_group;
use crate::scale::PLOT_LEFT;
use crate::shapes::{Rect, push_rect, push_words};
use plain_data::items::Items;
use small_texts::memory_error::Memory;
use small_texts::pieces::push_text;

// The colour of a group, and its name.
#[tactic(auto, unfolding(crate::specs::Legend::entry_text, crate::specs::Scale::plot_left))]
fn push_entry(out: &mut Vec<u8>, place: u32, name: &[u8]) -> Result<(), Memory>
    ensures { OnOk result (out.new.items ≡ out.old.items ++ entry_text place name.now) }
{
    let x = PLOT_LEFT + u64::from(place % 6) * 1760;
    let y = u64::from(place / 6) * 190;
    push_group(out, place)?;
    push_rect(
        out,
        Rect {
            x,
            y: 130 + y,
            width: 110,
            height: 110,
        },
    )?;
    push_text(out, b"</g>")?;
    push_words(out, x + 160, 225 + y, name)?;
    push_text(out, b"\n")
}

fn push_entries(out: &mut Vec<u8>, names: &[Items<u8>]) -> Result<(), Memory>
    requires { length names.now ≤ 12 }
    ensures { OnOk result (out.new.items ≡ out.old.items ++ entries_text 0 names.now) }
{
    let mut place = 0;
    for name in names {
        push_entry(out, place, name.as_slice())?;
        place += 1;
    }
    Ok(())
}

// The first twelve.
#[tactic(auto, using(crate::proofs::Taking::take_few))]
fn first_twelve(groups: &[Items<u8>]) -> &[Items<u8>]
    ensures is { result.now ≡ take 12 groups.now }
    ensures few { length result.now ≤ 12 }
{
    &groups[..groups.len().min(12)]
}

/// Writes the first twelve groups.
pub(crate) fn push_legend(out: &mut Vec<u8>, groups: &[Items<u8>]) -> Result<(), Memory>
    ensures { OnOk result (out.new.items ≡ out.old.items ++ legend_text groups.now) }
{
    push_entries(out, first_twelve(groups))
}
