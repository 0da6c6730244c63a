ghost use Rattle.std.specs.Prelude.{◌≡◌, ℕ, List, ◌+◌, ◌-◌, ◌^◌, ◌≤◌, ◌<◌, min, length, IfOk, IfSome, IfNone, MatchOption};
ghost use Rattle.resource_profile.specs.Sets.{tasks_given, Fits, IsChosen};
ghost use Rattle.resource_profile.specs.Beginnings.{IsRequiredBeginning};
ghost use Rattle.resource_profile.specs.Holding.{IsReserve, IsFull};

use crate::picking::Need;
use crate::reserve::Reserve;
use small_texts::memory_error::Memory;
use std::alloc::{AllocError, Global};

// The beginning of a set.
#[derive(Drop)]
struct Begun {
    set: Vec<u32>,
    // The tasks that it doesn't give yet.
    wanting: u32,
}

// The required places, or none where one of them gives no task.
fn required_places(alloc: Global, caps: &[u32], need: &Need) -> Result<Option<Begun>, AllocError>
    requires { need.now.required ≤ length caps.now }
    ensures begun { IfOk result (λ begun. IfSome begun (λ begun.
        IsRequiredBeginning caps.now need.now need.now.required begun.set.items)) }
    ensures wanting { IfOk result (λ begun. IfSome begun (λ begun.
        begun.wanting ≡ need.now.tasks - tasks_given caps.now begun.set.items)) }
    ensures none { IfOk result (λ begun. IfNone begun ((set : List ℕ) → ¬ Fits caps.now need.now set)) }
{
    let mut set = Vec::with_capacity(alloc, caps.len())?;
    let mut wanting = need.tasks;
    for place in 0..need.required {
        let given = caps[place as usize];
        if given == 0 {
            return Ok(None);
        }
        set.push(place)?;
        wanting = wanting.saturating_sub(given);
    }
    Ok(Some(Begun { set, wanting }))
}

// Goes along the places after the required ones and takes each that lets the set be completed, until it fits.
fn completed(
    caps: &[u32],
    need: &Need,
    begun: Begun,
    mut reserve: Reserve,
) -> Result<Vec<u32>, AllocError>
    requires small { length caps.now < 2 ^ 32 }
    requires required { (need.now.required ≤ length caps.now)
        × (need.now.required ≤ need.now.most) × (need.now.required ≤ need.now.tasks) }
    requires begun { IsRequiredBeginning caps.now need.now need.now.required begun.set.items }
    requires wanting { begun.wanting ≡ need.now.tasks - tasks_given caps.now begun.set.items }
    requires reserve { IsReserve caps.now need.now.required reserve }
    requires full { IsFull caps.now need.now.required
        (min need.now.most need.now.tasks - need.now.required) reserve.held.items }
    requires few { reserve.count + need.now.required ≤ min need.now.most need.now.tasks }
    requires least { need.now.least ≤ need.now.required + reserve.count }
    requires enough { begun.wanting ≤ reserve.tasks }
    ensures { IfOk result (λ set. IsChosen caps.now need.now set.items) }
{
    let Begun {
        mut set,
        mut wanting,
    } = begun;
    for place in need.required..caps.len() as u32 {
        if wanting == 0 && set.len() >= need.least as usize {
            break;
        }
        if reserve.admits(caps, place, wanting) {
            set.push(place)?;
            wanting = wanting.saturating_sub(caps[place as usize]);
        }
    }
    Ok(set)
}

// The first of the sets that fit, or none where none does.
pub(crate) fn first_set(
    alloc: Global,
    caps: &[u32],
    need: &Need,
) -> Result<Option<Vec<u32>>, Memory>
    ensures chosen { IfOk result (λ set. IfSome set (λ set. IsChosen caps.now need.now set.items)) }
    ensures none { IfOk result (λ set. IfNone set ((set : List ℕ) → ¬ Fits caps.now need.now set)) }
{
    let Ok(count) = u32::try_from(caps.len()) else {
        return Err(Memory);
    };
    let most = need.most.min(need.tasks);
    if need.required > count || need.required > most {
        return Ok(None);
    }
    let Some(begun) = required_places(alloc, caps, need)? else {
        return Ok(None);
    };
    let reserve = Reserve::new(alloc, caps, need.required, (most - need.required) as usize)?;
    if need.required as usize + reserve.count < need.least as usize
        || reserve.tasks < u64::from(begun.wanting)
    {
        return Ok(None);
    }
    Ok(Some(completed(caps, need, begun, reserve)?))
}
