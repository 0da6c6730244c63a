//! A file, read line by line.

ghost use Rattle.std.specs.Prelude.{ℕ, ◌≡◌, ◌≤◌, List, length, bytes_eq, IfOk, IsErrOf, Ok, Err};
ghost use Rattle.std.specs.HashSet.{contains};
ghost use Rattle.std.specs.Str.{byte};
ghost use Rattle.small_texts.specs.Fields.{fields};
ghost use Rattle.plain_data.specs.Assocs.{qos_names, PreemptAmong};
ghost use Rattle.assoc_reader.specs.declared.refusal.AssocKind.{AssocKind};
ghost use Rattle.assoc_reader.specs.Qos.{may_name, with_normal};
ghost use Rattle.assoc_reader.specs.Reader.{lines_say, whole_file, assocs_in};

use crate::draft::Draft;
use crate::known_qos::known_qos;
use crate::refusal::{AssocKind, AssocRefusal, Fault};
use plain_data::assoc::AssocFile;
use small_texts::fields::first_field;
use small_texts::name::Name;
use std::alloc::Global;
use std::collections::HashSet;

const LONGEST_FILE: usize = 4_194_304;

/// What an association file of at most 4,194,304 bytes says: sacctmgr(1), "Flat file". An error names the first bad
/// line, and in it the first bad place counts. It costs two walks over the file with a few steps for each byte, a look
/// through the keys of its line's kind for each option, and for each association a look-up of its name and a walk up
/// to root.
#[tactic(auto, unfolding(crate::specs::Reader::assocs_in))]
pub fn read_assocs(alloc: Global, text: &[u8]) -> Result<AssocFile, AssocRefusal>
    ensures value { IfOk result (λ file. assocs_in text.now ≡ Ok file) }
    ensures refused { (line : ℕ) → (kind : AssocKind)
        → IsErrOf result (AssocRefusal.At line kind) → assocs_in text.now ≡ Err (AssocRefusal.At line kind) }
{
    if text.len() > LONGEST_FILE {
        return Err(AssocRefusal::At {
            line: 0,
            kind: AssocKind::OverLimit,
        });
    }
    match read_draft(alloc, text) {
        Ok(draft) => end_file(alloc, draft),
        Err(refusal) => Err(refusal),
    }
}

// What the lines say, each list of names looked up among all lines.
fn read_draft(alloc: Global, file: &[u8]) -> Result<Draft, AssocRefusal>
    requires { length file.now ≤ 4_194_304 }
    ensures value { IfOk result (λ draft. lines_say (fields (byte "\n") file.now) ≡ Ok draft) }
    ensures refused { (line : ℕ) → (kind : AssocKind)
        → IsErrOf result (AssocRefusal.At line kind)
        → lines_say (fields (byte "\n") file.now) ≡ Err (AssocRefusal.At line kind) }
{
    let known = known_qos(alloc, file)?;
    read_lines(alloc, &known, file)
}

#[tactic(auto, using(crate::proofs::KnownLemmas::same_said))]
fn read_lines(alloc: Global, known: &HashSet<Name>, file: &[u8]) -> Result<Draft, AssocRefusal>
    requires small { length file.now ≤ 4_194_304 }
    requires known { (name : List ℕ)
        → contains bytes_eq known.now name ≡ may_name (fields (byte "\n") file.now) name }
    ensures value { IfOk result (λ draft. lines_say (fields (byte "\n") file.now) ≡ Ok draft) }
    ensures refused { (line : ℕ) → (kind : AssocKind)
        → IsErrOf result (AssocRefusal.At line kind)
        → lines_say (fields (byte "\n") file.now) ≡ Err (AssocRefusal.At line kind) }
{
    let mut draft = Draft::new(alloc);
    let mut rest = Some(file);
    let mut number = 1u32;
    while let Some(text) = rest {
        let (line, behind) = first_field(text, b'\n');
        match draft.read_line(alloc, known, line) {
            Ok(()) => {}
            Err(Fault::Refused(kind)) => return Err(AssocRefusal::At { line: number, kind }),
            Err(Fault::Memory) => return Err(AssocRefusal::Memory),
        }
        number += 1;
        rest = behind;
    }
    Ok(draft)
}

// What holds of the file as a whole.
#[tactic(auto, unfolding(crate::specs::Reader::whole_file))]
fn end_file(alloc: Global, draft: Draft) -> Result<AssocFile, AssocRefusal>
    requires { PreemptAmong (qos_names (with_normal draft.qos)) (with_normal draft.qos) }
    ensures value { IfOk result (λ file. whole_file draft ≡ Ok file) }
    ensures refused { (line : ℕ) → (kind : AssocKind)
        → IsErrOf result (AssocRefusal.At line kind) → whole_file draft ≡ Err (AssocRefusal.At line kind) }
{
    if !draft.has_cluster {
        return Err(AssocRefusal::At {
            line: 0,
            kind: AssocKind::NoCluster,
        });
    }
    let assocs = draft.tree.into_items();
    let qos = draft.qos.into_items(alloc)?;
    Ok(AssocFile { assocs, qos })
}
