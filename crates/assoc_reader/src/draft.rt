//! What the lines of a file say, as far as they are read.

use crate::assoc_tree::AssocTree;
use crate::assoc_words::read_assoc_words;
use crate::keys::LineKind;
use crate::lines::{LineForm, copy_name, is_ascii, is_skipped, read_form};
use crate::qos_table::QosTable;
use crate::qos_words::read_qos_words;
use crate::refusal::{AssocKind, Fault};
use small_texts::name::Name;
use std::alloc::Global;
use std::collections::HashSet;

/// What lines say.
#[derive(Drop)]
pub(crate) struct Draft {
    /// Whether there was the line of the cluster.
    pub(crate) has_cluster: bool,
    pub(crate) tree: AssocTree,
    pub(crate) qos: QosTable,
}

impl Draft {
    ghost use Rattle.std.specs.Prelude.{◌≡◌, bytes_eq, OnOk, IsErrOf, Ok, Err};
    ghost use Rattle.std.specs.HashSet.{contains};
    ghost use Rattle.assoc_reader.specs.declared.refusal.AssocKind.{AssocKind};
    ghost use Rattle.assoc_reader.specs.Lines.{form_of};
    ghost use Rattle.assoc_reader.specs.Reader.{nothing_said, after_cluster, after_qos, after_parent, after_assoc, before_cluster, behind_cluster, after_form, after_line};

    #[tactic(auto, unfolding(crate::specs::Reader::nothing_said))]
    pub(crate) fn new(alloc: Global) -> Draft
        ensures { result ≡ nothing_said }
    {
        Draft {
            has_cluster: false,
            tree: AssocTree::new(alloc),
            qos: QosTable::new(alloc),
        }
    }

    #[tactic(auto, unfolding(crate::specs::Reader::after_cluster))]
    fn read_cluster(&mut self, alloc: Global, form: LineForm) -> Result<(), Fault>
        ensures value { OnOk result (after_cluster self.old (form_of form.entry) ≡ Ok self.new) }
        ensures refused { (k : AssocKind) → IsErrOf result (Fault.Refused k)
            → after_cluster self.old (form_of form.entry) ≡ Err k }
    {
        read_assoc_words(alloc, false, form.rest)?;
        self.has_cluster = true;
        Ok(())
    }

    #[tactic(auto, unfolding(crate::specs::Reader::after_qos))]
    fn read_qos(
        &mut self,
        alloc: Global,
        known: &HashSet<Name>,
        form: LineForm,
    ) -> Result<(), Fault>
        ensures value { OnOk result
            (after_qos (contains bytes_eq known.now) self.old (form_of form.entry) ≡ Ok self.new) }
        ensures refused { (k : AssocKind) → IsErrOf result (Fault.Refused k)
            → after_qos (contains bytes_eq known.now) self.old (form_of form.entry) ≡ Err k }
    {
        if let Some(kind) = self.qos.name_fault(form.name) {
            return Err(Fault::Refused(kind));
        }
        let name = copy_name(alloc, form.name)?;
        let words = read_qos_words(alloc, known, form.rest)?;
        self.qos.push(name, words)?;
        Ok(())
    }

    #[tactic(auto, unfolding(crate::specs::Reader::after_parent))]
    fn read_parent(&mut self, alloc: Global, form: LineForm) -> Result<(), Fault>
        ensures value { OnOk result (after_parent self.old (form_of form.entry) ≡ Ok self.new) }
        ensures refused { (k : AssocKind) → IsErrOf result (Fault.Refused k)
            → after_parent self.old (form_of form.entry) ≡ Err k }
    {
        let name = copy_name(alloc, form.name)?;
        let Some(parent) = self.tree.parent_named(&name) else {
            return Err(Fault::Refused(AssocKind::UnknownParent));
        };
        if !form.rest.is_empty() {
            return Err(Fault::Refused(AssocKind::BadLine));
        }
        self.tree.set_parent(parent);
        Ok(())
    }

    #[tactic(auto, unfolding(crate::specs::Reader::after_assoc))]
    fn read_assoc(&mut self, alloc: Global, user: bool, form: LineForm) -> Result<(), Fault>
        ensures value { OnOk result (after_assoc user self.old (form_of form.entry) ≡ Ok self.new) }
        ensures refused { (k : AssocKind) → IsErrOf result (Fault.Refused k)
            → after_assoc user self.old (form_of form.entry) ≡ Err k }
    {
        let name = copy_name(alloc, form.name)?;
        if let Some(kind) = self.tree.name_fault(user, &name)? {
            return Err(Fault::Refused(kind));
        }
        let words = read_assoc_words(alloc, user, form.rest)?;
        self.tree.push(user, name, words)?;
        Ok(())
    }

    fn read_before_cluster(&mut self, alloc: Global, form: LineForm) -> Result<(), Fault>
        ensures value { OnOk result (before_cluster form.entry.kind self.old (form_of form.entry) ≡ Ok self.new) }
        ensures refused { (k : AssocKind) → IsErrOf result (Fault.Refused k)
            → before_cluster form.entry.kind self.old (form_of form.entry) ≡ Err k }
    {
        match form.kind {
            LineKind::Cluster => self.read_cluster(alloc, form),
            LineKind::Qos | LineKind::Parent | LineKind::Account | LineKind::User => Err(
                Fault::Refused(AssocKind::NoCluster),
            ),
        }
    }

    fn read_behind_cluster(
        &mut self,
        alloc: Global,
        known: &HashSet<Name>,
        form: LineForm,
    ) -> Result<(), Fault>
        ensures value { OnOk result
            (behind_cluster (contains bytes_eq known.now) form.entry.kind self.old (form_of form.entry) ≡ Ok self.new) }
        ensures refused { (k : AssocKind) → IsErrOf result (Fault.Refused k)
            → behind_cluster (contains bytes_eq known.now) form.entry.kind self.old (form_of form.entry) ≡ Err k }
    {
        match form.kind {
            LineKind::Cluster => Err(Fault::Refused(AssocKind::BadLine)),
            LineKind::Qos => self.read_qos(alloc, known, form),
            LineKind::Parent => self.read_parent(alloc, form),
            LineKind::Account => self.read_assoc(alloc, false, form),
            LineKind::User => self.read_assoc(alloc, true, form),
        }
    }

    #[tactic(auto, unfolding(crate::specs::Reader::after_form))]
    fn read_form(
        &mut self,
        alloc: Global,
        known: &HashSet<Name>,
        form: LineForm,
    ) -> Result<(), Fault>
        ensures value { OnOk result
            (after_form (contains bytes_eq known.now) self.old (form_of form.entry) ≡ Ok self.new) }
        ensures refused { (k : AssocKind) → IsErrOf result (Fault.Refused k)
            → after_form (contains bytes_eq known.now) self.old (form_of form.entry) ≡ Err k }
    {
        if self.has_cluster {
            self.read_behind_cluster(alloc, known, form)
        } else {
            self.read_before_cluster(alloc, form)
        }
    }

    /// Takes up what a line says, where it is told which names the list of a quality of service may have. After an error
    /// the draft is of no use.
    #[tactic(auto, unfolding(crate::specs::Reader::after_line))]
    pub(crate) fn read_line(
        &mut self,
        alloc: Global,
        known: &HashSet<Name>,
        line: &[u8],
    ) -> Result<(), Fault>
        ensures value { OnOk result (after_line (contains bytes_eq known.now) self.old line.now ≡ Ok self.new) }
        ensures refused { (k : AssocKind) → IsErrOf result (Fault.Refused k)
            → after_line (contains bytes_eq known.now) self.old line.now ≡ Err k }
    {
        if is_skipped(line) {
            return Ok(());
        }
        if !is_ascii(line) {
            return Err(Fault::Refused(AssocKind::NotAscii));
        }
        match read_form(line) {
            Some(form) => self.read_form(alloc, known, form),
            None => Err(Fault::Refused(AssocKind::BadLine)),
        }
    }
}
