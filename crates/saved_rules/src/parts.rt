//! What types keep of what is held, planned and heard of nodes.

ghost use Rattle.state_save.specs.Fitting.{AreCpus, HeardFits, PartFits, ShareFits};

use crate::typed::Typed;
use plain_data::CpuIds;
use reply_data::view::NamedPart;
use request_data::report::Heard;
use saved_data::parts::SavedShare;

impl Typed for CpuIds {
    ghost typed = { AreCpus };

    fn tell(&self) {
        self.tell_rising();
    }
}

impl Typed for Heard {
    ghost typed = { HeardFits };

    fn tell(&self) {
        self.boot.tell();
        self.number.tell();
        self.moment.tell();
    }
}

impl Typed for NamedPart {
    ghost typed = { PartFits };

    fn tell(&self) {
        self.node.tell();
        self.cpus.tell();
        self.mem.tell();
    }
}

impl Typed for SavedShare {
    ghost typed = { ShareFits };

    fn tell(&self) {
        self.node.tell();
        self.tasks.tell();
        self.cpus.tell();
        self.mem.tell();
    }
}
