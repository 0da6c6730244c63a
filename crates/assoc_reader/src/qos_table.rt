//! The qualities of service, as far as they are read.

ghost use Rattle.std.specs.Prelude.{◌≡◌, codes, bytes_eq};
ghost use Rattle.host_lists.specs.Hosts.{has};
ghost use Rattle.plain_data.specs.Assocs.{qos_names};
ghost use Rattle.assoc_reader.specs.Qos.{qos_conf};

use crate::qos_words::QosWords;
use crate::refusal::AssocKind;
use plain_data::assoc::QosConf;
use plain_data::items::Items;
use small_texts::memory_error::Memory;
use small_texts::name::Name;
use std::alloc::Global;
use std::marker::Model;

const MOST_QOS: usize = 64;

/// The quality of service that every file has.
const NORMAL: &[u8] = b"normal";

/// Qualities of service in order. A contract sees the list of them.
#[derive(Drop)]
pub(crate) struct QosTable {
    qos: Vec<QosConf>,
}

impl Model for QosTable {
    ghost use Rattle.std.specs.Prelude.{List};
    ghost use Rattle.plain_data.specs.declared.assoc.QosConf.{QosConf};

    ghost Value = { List QosConf };

    ghost use Rattle.assoc_reader.specs.Qos.{IsQosList};

    ghost view = { λ table. table.qos.items };

    ghost invariant = { λ table. IsQosList table.qos.items };
}

fn has_qos(qos: &[QosConf], name: &[u8]) -> bool
    ensures { result ≡ has name.now (qos_names qos.now) }
{
    for one in qos {
        if name == one.name.as_bytes() {
            return true;
        }
    }
    false
}

// A quality of service by what its line says.
#[tactic(auto, unfolding(crate::specs::Qos::qos_conf))]
fn make_qos(name: Name, words: QosWords) -> QosConf
    ensures { result ≡ qos_conf name words }
{
    QosConf {
        name,
        priority: words.priority,
        limits: words.limits,
        preempt: words.preempt,
    }
}

impl QosTable {
    ghost use Rattle.std.specs.Prelude.{◌≡◌, ◌++◌, ◌∷◌, [], None, OnOk, IfOk};
    ghost use Rattle.plain_data.specs.Assocs.{qos_names};
    ghost use Rattle.assoc_reader.specs.Qos.{qos_fault, qos_conf, with_normal, IsQosList};

    /// A table of none.
    pub(crate) fn new(alloc: Global) -> QosTable
        ensures { result ≡ [] }
    {
        QosTable {
            qos: Vec::new(alloc),
        }
    }

    /// What is wrong with the name of one more.
    #[tactic(auto, unfolding(crate::specs::Qos::qos_fault, crate::specs::Qos::counted))]
    pub(crate) fn name_fault(&self, name: &[u8]) -> Option<AssocKind>
        ensures { result ≡ qos_fault (qos_names self.now) name.now }
    {
        let qos = self.qos.as_slice();
        if has_qos(qos, name) {
            return Some(AssocKind::TwiceNamed);
        }
        let has_normal = has_qos(qos, NORMAL) || name == NORMAL;
        let most = if has_normal { MOST_QOS } else { MOST_QOS - 1 };
        if qos.len() < most {
            None
        } else {
            Some(AssocKind::OverLimit)
        }
    }

    /// Puts one more behind the others.
    pub(crate) fn push(&mut self, name: Name, words: QosWords) -> Result<(), Memory>
        requires { qos_fault (qos_names self.old) name ≡ None }
        ensures { OnOk result (self.new ≡ self.old ++ qos_conf name words ∷ []) }
    {
        self.qos.push(make_qos(name, words))?;
        Ok(())
    }

    /// The qualities of service, `normal` behind them where no line gives it.
    #[tactic(auto, unfolding(crate::specs::Qos::with_normal))]
    pub(crate) fn into_items(self, alloc: Global) -> Result<Items<QosConf>, Memory>
        ensures value { IfOk result (λ qos. qos ≡ with_normal self) }
        ensures sound { IsQosList self }
    {
        let mut qos = self.qos;
        if !has_qos(qos.as_slice(), NORMAL) {
            let name = Name::read(alloc, NORMAL).map_err(|_| Memory)?;
            qos.push(make_qos(name, QosWords::new(alloc)))?;
        }
        Ok(Items::from_vec(qos))
    }
}
