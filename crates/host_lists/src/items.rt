//! Items of host expressions: what stands between commas outside brackets.

ghost use Rattle.std.specs.Prelude.{◌≡◌, ◌<◌, ◌≤◌, ◌^◌, ◌+◌, ◌∷◌, length, is_some, IfSome};
ghost use Rattle.std.specs.Option.{option_copied};
ghost use Rattle.host_lists.specs.Hosts.{ends_item, open_behind, host_items, items_of_rest, item_names, first_bad_item};

use crate::brackets::is_good_bracket;
use small_texts::fields::{UpToThree, up_to_three};
use small_texts::name::is_name;

fn ends_item(inside: bool, b: u8) -> bool
    ensures { result ≡ ends_item inside b }
{
    b == b',' && !inside
}

fn open_behind(inside: bool, b: u8) -> bool
    ensures { result ≡ open_behind inside b }
{
    match b {
        b'[' => true,
        b']' => false,
        _ => inside,
    }
}

/// The first item, up to its first comma outside a bracket, and what follows that comma where there is one.
#[tactic(auto, using(crate::proofs::ItemLemmas::cutting), unfolding(crate::specs::Hosts::host_items))]
pub(crate) fn first_item(text: &[u8]) -> (&[u8], Option<&[u8]>)
    ensures cut { host_items text.now ≡ result.0.now ∷ items_of_rest (option_copied result.1) }
    ensures len { IfSome result.1 (λ rest. length result.0.now + 1 + length rest.now ≡ length text.now) }
    ensures within { length result.0.now ≤ length text.now }
{
    let mut inside = false;
    for (place, b) in text.iter().enumerate() {
        if ends_item(inside, *b) {
            return (&text[..place], Some(&text[place + 1..]));
        }
        inside = open_behind(inside, *b);
    }
    (text, None)
}

#[tactic(auto, unfolding(crate::specs::Hosts::made_by, crate::specs::Hosts::made_behind))]
fn is_good_item(item: &[u8]) -> bool
    ensures { result ≡ is_some (item_names item.now) }
{
    match up_to_three(item, b'[') {
        UpToThree::One(name) => is_name(name),
        UpToThree::Two(prefix, rest) => match up_to_three(rest, b']') {
            UpToThree::Two(inside, []) => is_good_bracket(prefix, inside),
            _ => false,
        },
        _ => false,
    }
}

/// The place of the first item that has no names. It takes no memory.
#[tactic(auto, unfolding(crate::specs::Hosts::first_bad_item))]
pub(crate) fn first_bad_item(text: &[u8]) -> Option<usize>
    requires { length text.now < 2 ^ 32 }
    ensures value { result ≡ first_bad_item text.now }
    ensures small { IfSome result (λ place. place < 2 ^ 32) }
{
    let mut place = 0;
    let mut rest = Some(text);
    while let Some(items) = rest {
        let (item, others) = first_item(items);
        if !is_good_item(item) {
            return Some(place);
        }
        place += item.len() + 1;
        rest = others;
    }
    None
}
