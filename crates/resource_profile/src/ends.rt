ghost use Rattle.std.specs.Prelude.{◌≡◌, ℕ, ◌+◌, ◌^◌, ◌≤◌, ◌<◌, nat_eq, if◌then◌else◌, length, slice_index_or, vec_len, vec_capacity, IfSome, IfNone, All};
ghost use Rattle.resource_profile.specs.Ends.{HasEnds, IsNextOf, ends_at};
ghost use Rattle.resource_profile.specs.declared.ends.End.{End};

// A moment at which holds end, and how many do.
#[derive(Clone, Copy)]
pub(crate) struct End {
    pub(crate) moment: u64,
    pub(crate) count: u64,
}

// How many of the ends are at most the moment.
fn passed(ends: &[End], moment: u64) -> usize
    requires { HasEnds ends.now }
    ensures bound { result ≤ length ends.now }
    ensures before { (i : ℕ) (d : End) → i < result → (slice_index_or ends.now i d).moment ≤ moment }
    ensures after { (i : ℕ) (d : End) → result ≤ i → i < length ends.now
        → moment < (slice_index_or ends.now i d).moment }
{
    let mut low = 0;
    let mut high = ends.len();
    while low < high {
        let middle = low + (high - low) / 2;
        if ends[middle].moment <= moment {
            low = middle + 1;
        } else {
            high = middle;
        }
    }
    low
}

// The least end that is later than `after`.
pub(crate) fn next_end(ends: &[End], after: u64) -> Option<u64>
    requires { HasEnds ends.now }
    ensures some { IfSome result (IsNextOf ends.now after) }
    ensures none { IfNone result (All (λ (end : End). end.moment ≤ after) ends.now) }
{
    let place = passed(ends, after);
    if place == ends.len() {
        return None;
    }
    Some(ends[place].moment)
}

// Counts one more hold that ends at the moment.
pub(crate) fn add_end(ends: &mut Vec<End>, moment: u64)
    requires ends { HasEnds ends.old.items }
    requires room { vec_len ends.old < vec_capacity ends.old }
    requires count { ends_at ends.old.items moment + 1 < 2 ^ 64 }
    ensures ends { HasEnds ends.new.items }
    ensures counted { (other : ℕ) → ends_at ends.new.items other
        ≡ ends_at ends.old.items other + (if nat_eq moment other then 1 else 0) }
    ensures len { vec_len ends.new ≤ vec_len ends.old + 1 }
    ensures capacity { vec_capacity ends.old ≤ vec_capacity ends.new }
{
    let place = passed(ends, moment);
    if place > 0 && ends[place - 1].moment == moment {
        ends[place - 1].count += 1;
        return;
    }
    ends.insert(place, End { moment, count: 1 }).unwrap();
}

// Counts one hold less that ends at the moment.
pub(crate) fn drop_end(ends: &mut Vec<End>, moment: u64)
    requires ends { HasEnds ends.old.items }
    requires has { 1 ≤ ends_at ends.old.items moment }
    ensures ends { HasEnds ends.new.items }
    ensures counted { (other : ℕ) → ends_at ends.new.items other + (if nat_eq moment other then 1 else 0)
        ≡ ends_at ends.old.items other }
    ensures len { vec_len ends.new ≤ vec_len ends.old }
    ensures capacity { vec_capacity ends.old ≤ vec_capacity ends.new }
{
    let place = passed(ends, moment) - 1;
    if ends[place].count > 1 {
        ends[place].count -= 1;
        return;
    }
    let _ = ends.remove(place);
}
