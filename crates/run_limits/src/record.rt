//! What is kept of associations and qualities of service.

use plain_data::assoc::{AssocConf, QosConf};

/// An association: an account, or a user of it.
#[derive(Drop)]
pub struct AssocRecord {
    pub conf: AssocConf,
}

/// A quality of service.
#[derive(Drop)]
pub struct QosRecord {
    pub conf: QosConf,
}
