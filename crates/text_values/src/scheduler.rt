//! The parameters of the scheduler: one value with parameters between commas.

ghost use Rattle.std.specs.Prelude.{◌≡◌, Some};
ghost use Rattle.text_values.specs.Scheduler.{scheduler_item, scheduler_in};

use crate::numbers::read_number;
use plain_data::ranged::Ranged;
use small_texts::fields::{UpToThree, first_field, up_to_three};

/// The parameters that a value gives.
#[derive(Clone, Copy)]
pub struct Scheduler {
    /// Minutes.
    pub window: Option<Ranged<1, 43200>>,
    /// Seconds.
    pub interval: Option<Ranged<1, 10800>>,
}

/// One parameter.
#[derive(Clone, Copy)]
pub enum SchedulerItem {
    Window(Ranged<1, 43200>),
    Interval(Ranged<1, 10800>),
}

#[tactic(auto, unfolding(crate::specs::Scheduler::scheduler_item_of))]
fn read_item(text: &[u8]) -> Option<SchedulerItem>
    ensures { result ≡ scheduler_item text.now }
{
    let UpToThree::Two(name, value) = up_to_three(text, b'=') else {
        return None;
    };
    if name == b"bf_window".as_slice() {
        Some(SchedulerItem::Window(read_number(value)?))
    } else if name == b"bf_interval".as_slice() {
        Some(SchedulerItem::Interval(read_number(value)?))
    } else {
        None
    }
}

impl Scheduler {
    ghost use Rattle.std.specs.Prelude.{◌≡◌};
    ghost use Rattle.text_values.specs.Scheduler.{with_item, no_items};

    /// No parameter.
    #[tactic(auto, unfolding(crate::specs::Scheduler::no_items))]
    pub fn new() -> Scheduler
        ensures { result ≡ no_items }
    {
        Scheduler {
            window: None,
            interval: None,
        }
    }

    #[tactic(auto, unfolding(crate::specs::Scheduler::with_item))]
    fn with(self, item: SchedulerItem) -> Scheduler
        ensures { result ≡ with_item self item }
    {
        match item {
            SchedulerItem::Window(minutes) => Scheduler {
                window: Some(minutes),
                interval: self.interval,
            },
            SchedulerItem::Interval(seconds) => Scheduler {
                window: self.window,
                interval: Some(seconds),
            },
        }
    }
}

/// The value of `SchedulerParameters`; of a parameter that stands twice the last counts.
#[tactic(auto, using(crate::proofs::SchedulerLemmas::item_steps), unfolding(crate::specs::Scheduler::scheduler_in))]
pub fn read_scheduler(text: &[u8]) -> Option<Scheduler>
    ensures { result ≡ scheduler_in text.now }
{
    let mut plans = Scheduler::new();
    let mut rest = Some(text);
    while let Some(list) = rest {
        let (first, others) = first_field(list, b',');
        match read_item(first) {
            Some(item) => plans = plans.with(item),
            None => return None,
        }
        rest = others;
    }
    Some(plans)
}
