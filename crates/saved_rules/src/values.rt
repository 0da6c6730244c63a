//! What types keep of numbers, of names and of what a job asks for.

ghost use Rattle.state_save.specs.Fitting.{FitsU32, FitsU64, IsWithin, IsName, IsJobName, LimitFits, MemFits, NiceFits};

use crate::typed::Typed;
use plain_data::limit::Limit;
use plain_data::mem_ask::MemAsk;
use plain_data::nice::Nice;
use plain_data::ranged::{LongRanged, Ranged};
use small_texts::name::{JobName, Name};

impl Typed for u32 {
    ghost typed = { FitsU32 };

    fn tell(&self) {
        let _number = *self;
    }
}

impl Typed for u64 {
    ghost typed = { FitsU64 };

    fn tell(&self) {
        let _number = *self;
    }
}

impl<const LEAST: u32, const MOST: u32> Typed for Ranged<LEAST, MOST> {
    ghost typed = { IsWithin LEAST MOST };

    fn tell(&self) {
        let _ = self.get();
    }
}

impl<const LEAST: u64, const MOST: u64> Typed for LongRanged<LEAST, MOST> {
    ghost typed = { IsWithin LEAST MOST };

    fn tell(&self) {
        let _ = self.get();
    }
}

impl Typed for Name {
    ghost typed = { IsName };

    fn tell(&self) {
        let _ = self.as_bytes();
    }
}

impl Typed for JobName {
    ghost typed = { IsJobName };

    fn tell(&self) {
        let _ = self.as_bytes();
    }
}

impl Typed for Limit {
    ghost typed = { LimitFits };

    fn tell(&self) {
        match self {
            Limit::Minutes(minutes) => minutes.tell(),
            Limit::Unlimited => {}
        }
    }
}

impl Typed for MemAsk {
    ghost typed = { MemFits };

    fn tell(&self) {
        match self {
            MemAsk::All => {}
            MemAsk::PerNode(mem) => mem.tell(),
            MemAsk::PerCpu(mem) => mem.tell(),
        }
    }
}

impl Typed for Nice {
    ghost typed = { NiceFits };

    fn tell(&self) {
        match self {
            Nice::Lower(number) => number.tell(),
            Nice::Raise(number) => number.tell(),
        }
    }
}
