//! A run of the program as a server.

ghost use Rattle.std.specs.Prelude.{◌≡◌, ◌<◌, ◌≤◌, ℕ, [], List, Option, IfOk, IsErrOf, OnOk, length};
ghost use Rattle.plain_data.specs.Files.{named_by};
ghost use Rattle.saved_data.specs.Sizes.{longest_text};
ghost use Rattle.script_run.specs.Behind.{saved_state};
ghost use Rattle.slurm_top.specs.Outside.{beside, outside};
ghost use Rattle.slurm_top.specs.Run.{IsEndServing, hosted};
ghost use Rattle.slurm_top.specs.Serving.{IsSavedBehind, IsServedUntil, IsServing, saved_by};

use crate::end::{End, end_unopened};
use crate::gates::no_gates;
use cluster_opening::open_named;
use ctl_desk::book::Book;
use ctl_server::{ServeEnd, serve};
use program_words::ServeWords;
use script_run::{SaveRefusal, saved_text};
use slurm_io::{Failed, Link, Shelf, write_all};
use slurm_net::{Clock, Door, Host};
use std::alloc::Global;
use std::sync::Wait;
use std::thread::Threads;

// Serves from this book on, until a shutdown is accepted; an end of a run where there was none.
fn serve_book<R: Threads + Wait + Sync, L: Link, C: Clock + Send + Drop, H: Host>(
    rt: &R,
    alloc: Global,
    book: Book,
    words: &ServeWords<'_>,
    link: &mut L,
    clock: &mut C,
    host: &mut H,
) -> Result<Book, End>
where
    H::Door: Send + Drop,
    <H::Door as Door>::Link: Send,
    requires fresh { book.entries ≡ [] }
    requires workers { (1 ≤ words.now.workers) × (words.now.workers ≤ 64) }
    ensures served { IsServedUntil book.opening words.now.port words.now.workers (C.course clock.old)
        (H.closed host.new) (L.wire link.old) (L.wire link.new) (H.hosting host.old).faults (H.hosting host.new).faults result }
    ensures counts { ((H.hosting host.new).link_reads ≡ (H.hosting host.old).link_reads)
        × ((H.hosting host.new).link_writes ≡ (H.hosting host.old).link_writes) }
    ensures kept { ((H.hosting host.new).next_left ≡ (H.hosting host.old).next_left)
        × ((H.hosting host.new).last_taken ≡ (H.hosting host.old).last_taken) }
{
    let Ok(gates) = no_gates(alloc, words.workers) else {
        return Err(End::Memory);
    };
    match serve(
        rt,
        alloc,
        book,
        words.port,
        words.workers,
        host,
        link,
        clock,
        gates,
    ) {
        ServeEnd::Shut(book) => {
            let _ = book.len();
            Ok(book)
        }
        ServeEnd::DoorFault => Err(End::DoorFault),
        ServeEnd::WriteFault => Err(End::WriteFault),
        ServeEnd::Memory => Err(End::Memory),
    }
}

// The text of the state at a book, where it is to be saved.
fn text_of(alloc: Global, book: &Book, save: bool) -> Result<Vec<u8>, SaveRefusal>
    ensures text { IfOk result (λ text. text.items ≡ saved_by save book.now) }
    ensures short { OnOk result (length (saved_by save book.now) ≤ longest_text) }
    ensures long { IsErrOf result SaveRefusal.TooLong → longest_text < length (saved_by save book.now) }
{
    if save {
        saved_text(alloc, book.ctl())
    } else {
        Ok(Vec::new(alloc))
    }
}

// Writes a saved state, in one piece.
fn write_saved<L: Link>(link: &mut L, text: &[u8]) -> End
    requires { length text.now ≤ longest_text }
    ensures { IsSavedBehind text.now (L.wire link.old) (L.wire link.new) result }
{
    match write_all(link, text) {
        Ok(()) => End::Served,
        Err(Failed) => End::WriteFault,
    }
}

// Saves the state at a book, where it is to be saved.
fn save_book<L: Link>(alloc: Global, book: &Book, save: bool, link: &mut L) -> End
    ensures { IsSavedBehind (saved_by save book.now) (L.wire link.old) (L.wire link.new) result }
{
    match text_of(alloc, book, save) {
        Ok(text) => write_saved(link, text.as_slice()),
        Err(SaveRefusal::TooLong) => End::Spent,
        Err(SaveRefusal::Memory) => End::Memory,
    }
}

// Serves from this book on, until a shutdown is accepted, and saves the state then, where it is to be saved.
fn serve_and_save<R: Threads + Wait + Sync, L: Link, C: Clock + Send + Drop, H: Host>(
    rt: &R,
    alloc: Global,
    book: Book,
    words: &ServeWords<'_>,
    link: &mut L,
    clock: &mut C,
    host: &mut H,
) -> End
where
    H::Door: Send + Drop,
    <H::Door as Door>::Link: Send,
    requires fresh { book.entries ≡ [] }
    requires workers { (1 ≤ words.now.workers) × (words.now.workers ≤ 64) }
    ensures served { IsServing book.opening words.now.port words.now.workers words.now.save (C.course clock.old)
        (H.closed host.new) (L.wire link.old) (L.wire link.new) (H.hosting host.old).faults (H.hosting host.new).faults result }
    ensures counts { ((H.hosting host.new).link_reads ≡ (H.hosting host.old).link_reads)
        × ((H.hosting host.new).link_writes ≡ (H.hosting host.old).link_writes) }
    ensures kept { ((H.hosting host.new).next_left ≡ (H.hosting host.old).next_left)
        × ((H.hosting host.new).last_taken ≡ (H.hosting host.old).last_taken) }
{
    match serve_book(rt, alloc, book, words, link, clock, host) {
        Ok(book) => save_book(alloc, &book, words.save, link),
        Err(end) => end,
    }
}

/// Opens the cluster of the words' files, and serves it at the port until a shutdown is accepted; that may be never, and
/// then the call doesn't return. One line is written once the doors are open, and behind the shutdown the state, where it
/// is to be saved.
pub(crate) fn serve_files<
    R: Threads + Wait + Sync,
    Q: Shelf,
    L: Link,
    C: Clock + Send + Drop,
    H: Host,
>(
    rt: &R,
    alloc: Global,
    words: &ServeWords<'_>,
    shelf: &mut Q,
    link: &mut L,
    clock: &mut C,
    host: &mut H,
) -> End
where
    H::Door: Send + Drop,
    <H::Door as Door>::Link: Send,
    requires workers { (1 ≤ words.now.workers) × (words.now.workers ≤ 64) }
    ensures { (errors : Option (List ℕ)) (faults : ℕ) → IsEndServing (named_by words.now.files) words.now.port
        words.now.workers words.now.save (hosted (C.course clock.old) (H.closed host.new))
        (outside (Q.files shelf.old) (Q.shelf_faults shelf.old) (L.wire link.old))
        (outside (Q.files shelf.new) (Q.shelf_faults shelf.new) (L.wire link.new))
        (beside errors faults (H.hosting host.old))
        (beside errors faults (H.hosting host.new)) result }
{
    match open_named(alloc, &words.files, shelf) {
        Ok(desk) => serve_and_save(rt, alloc, desk.into_book(), words, link, clock, host),
        Err(refusal) => end_unopened(refusal),
    }
}
