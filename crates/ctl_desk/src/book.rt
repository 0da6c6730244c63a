//! The book: the controller with its history.

ghost use Rattle.std.specs.Prelude.{◌≡◌, ◌<◌, ◌++◌, ◌∷◌, [], IfOk, IfSome, IfNone, OnOk, OnErr, if◌then◌else◌, length, Some, None, vec_len, vec_capacity};
ghost use Rattle.request_data.specs.declared.request.Request.TheVariants.{Pass};
ghost use Rattle.resource_profile.specs.Counts.{IsTickedUpTo};
ghost use Rattle.ctl_state.specs.Soundness.{IsSound};
ghost use Rattle.ctl_core.specs.Step.{IsHinted, input_at, kept_after, raised, reply_of, is_entered, state_after, steps_of};
ghost use Rattle.ctl_desk.specs.History.{entry_of, history_in, present, IsHistory};

use crate::entry::{Answer, Entry};
use backfill_planner::Planned;
use ctl_core::controller::Ctl;
use ctl_core::laws::raised_moments_decide_alike;
use ctl_core::reply::Decided;
use ctl_node_side::laws::passes_are_free;
use ctl_pass::PlanInput;
use request_data::request::Request;
use resource_profile::Steps;
use small_texts::memory_error::Memory;
use small_texts::name::Name;
use std::alloc::Global;
use std::marker::Model;

/// The controller, its opening and its history. A contract sees the opening, the entries and the plan that is kept.
#[derive(Drop)]
pub struct Book {
    ctl: Ctl,
    opening: Ctl,
    entries: Vec<Entry>,
}

impl Model for Book {
    ghost use Rattle.std.specs.Prelude.{◌≡◌};
    ghost use Rattle.ctl_desk.specs.History.{BookState, IsHistory, after_all};

    ghost Value = { BookState };

    ghost view = { λ b. record { opening = b.opening.state; entries = b.entries.items; kept = b.ctl.kept } };

    ghost invariant = { λ b. IsHistory (record { opening = b.opening.state; entries = b.entries.items })
        × (b.ctl.state ≡ after_all b.opening.state b.entries.items) };
}

impl Book {
    /// A book without entries. The caller makes the controller twice.
    pub fn new(alloc: Global, ctl: Ctl, opening: Ctl) -> Book
        requires same { ctl.state ≡ opening.state }
        ensures opening { result.opening ≡ opening.state }
        ensures entries { result.entries ≡ [] }
        ensures kept { result.kept ≡ ctl.kept }
    {
        let _ = opening.cluster();
        Book {
            ctl,
            opening,
            entries: Vec::new(alloc),
        }
    }

    /// How many entries there are.
    pub fn len(&self) -> u64
        ensures len { result ≡ length self.now.entries }
        ensures history { IsHistory (history_in self.now) }
    {
        self.entries.len() as u64
    }

    /// The controller, as the entries have left it. It takes no memory.
    pub fn ctl(&self) -> &Ctl
        ensures { result.now.state ≡ present (history_in self.now) }
    {
        &self.ctl
    }

    /// The entries, in order. It takes no memory.
    pub fn entries(&self) -> &[Entry]
        ensures value { result.now ≡ self.now.entries }
        ensures history { IsHistory (history_in self.now) }
    {
        self.entries.as_slice()
    }

    /// The controller as the entries have left it, and these, in order. It takes no memory.
    pub fn into_parts(self) -> (Ctl, Vec<Entry>)
        ensures state { result.0.state ≡ present (history_in self) }
        ensures entries { result.1.items ≡ self.entries }
        ensures history { IsHistory (history_in self) }
    {
        (self.ctl, self.entries)
    }

    /// Lets it go.
    pub fn let_go(self) {}

    /// Decides a request of a session, and enters it where it is accepted. The cost is the controller's.
    pub fn ask(
        &mut self,
        session: u32,
        now: u64,
        user: &Name,
        request: Request,
    ) -> Result<Answer, Memory>
        ensures reply { IfOk result (λ answer. answer.reply ≡ reply_of (present (history_in self.old)) now user.now request) }
        ensures place { IfOk result (λ answer. answer.place ≡ length self.old.entries) }
        ensures entries { IfOk result (λ answer. self.new.entries ≡ (if is_entered answer.reply
            then self.old.entries ++ entry_of (present (history_in self.old)) session now user.now request ∷ []
            else self.old.entries)) }
        ensures opening { self.new.opening ≡ self.old.opening }
        ensures kept { OnOk result
            (self.new.kept ≡ kept_after (present (history_in self.old)) self.old.kept now user.now request) }
        ensures err { OnErr result (self.new ≡ self.old) }
    {
        raised_moments_decide_alike();
        passes_are_free();
        match decide(&mut self.entries, &mut self.ctl, now, user, &request) {
            Ok((name, decided)) => Ok(enter(&mut self.entries, session, name, request, decided)),
            Err(Memory) => {
                request.let_go();
                Err(Memory)
            }
        }
    }

    /// Makes a pass for a session, whatever plan is at hand, and enters it where it is accepted. The cost is the
    /// controller's, and so is the count of steps.
    pub fn pass<L>(
        &mut self,
        session: u32,
        now: u64,
        user: &Name,
        hint: Option<Planned>,
        steps: &mut Steps<L>,
    ) -> Result<Answer, Memory>
        ensures reply { IfOk result (λ answer. answer.reply ≡ reply_of (present (history_in self.old)) now user.now Pass) }
        ensures place { IfOk result (λ answer. answer.place ≡ length self.old.entries) }
        ensures entries { IfOk result (λ answer. self.new.entries ≡ (if is_entered answer.reply
            then self.old.entries ++ entry_of (present (history_in self.old)) session now user.now Pass ∷ []
            else self.old.entries)) }
        ensures opening { self.new.opening ≡ self.old.opening }
        ensures kept { OnOk result
            (self.new.kept ≡ kept_after (present (history_in self.old)) self.old.kept now user.now Pass) }
        ensures err { OnErr result (self.new ≡ self.old) }
        ensures steps { IsTickedUpTo (steps_of (present (history_in self.old)) now user.now) steps.old steps.new }
        ensures over { IfSome hint (λ hint. IsHinted hint (present (history_in self.old)) now steps.old steps.new) }
        ensures over_kept { IfNone hint (IfSome self.old.kept (λ kept.
            IsHinted kept (present (history_in self.old)) now steps.old steps.new)) }
    {
        raised_moments_decide_alike();
        passes_are_free();
        match decide_pass(&mut self.entries, &mut self.ctl, now, user, hint, steps) {
            Ok((name, decided)) => Ok(enter(
                &mut self.entries,
                session,
                name,
                Request::Pass,
                decided,
            )),
            Err(Memory) => Err(Memory),
        }
    }

    /// What a pass by a privileged user at a moment would make its plan of, with a copy of the plan that the controller
    /// keeps. The cost is the controller's.
    pub fn input(&mut self, now: u64) -> Result<PlanInput, Memory>
        ensures input { IfOk result (λ input. input.parts ≡ input_at (present (history_in self.old)) now) }
        ensures kept { IfOk result (λ input. input.kept ≡ self.old.kept) }
        ensures stays { self.new ≡ self.old }
        ensures history { IsHistory (history_in self.old) }
    {
        self.ctl.input(now)
    }
}

// Decides a request, once there is room for its entry and a name for it.
fn decide(
    entries: &mut Vec<Entry>,
    ctl: &mut Ctl,
    now: u64,
    user: &Name,
    request: &Request,
) -> Result<(Name, Decided), Memory>
    ensures items { entries.new.items ≡ entries.old.items }
    ensures spare { OnOk result (vec_len entries.new < vec_capacity entries.new) }
    ensures name { IfOk result (λ made. made.0 ≡ user.now) }
    ensures reply { IfOk result (λ made. made.1.reply ≡ reply_of ctl.old.state now user.now request.now) }
    ensures entered { IfOk result (λ made.
        made.1.entered ≡ (if is_entered made.1.reply then Some made.1.reply else None)) }
    ensures moment { IfOk result (λ made. made.1.moment ≡ raised ctl.old.state now) }
    ensures after { OnOk result (ctl.new.state ≡ state_after ctl.old.state now user.now request.now) }
    ensures kept { OnOk result (ctl.new.kept ≡ kept_after ctl.old.state ctl.old.kept now user.now request.now) }
    ensures err { OnErr result (ctl.new ≡ ctl.old) }
    ensures sound { OnOk result (IsSound ctl.old.state × IsSound ctl.new.state) }
{
    let name = prepare(entries, user)?;
    let decided = ctl.ask(now, user, request)?;
    Ok((name, decided))
}

// Makes a pass, once there is room for its entry and a name for it.
fn decide_pass<L>(
    entries: &mut Vec<Entry>,
    ctl: &mut Ctl,
    now: u64,
    user: &Name,
    hint: Option<Planned>,
    steps: &mut Steps<L>,
) -> Result<(Name, Decided), Memory>
    ensures items { entries.new.items ≡ entries.old.items }
    ensures spare { OnOk result (vec_len entries.new < vec_capacity entries.new) }
    ensures name { IfOk result (λ made. made.0 ≡ user.now) }
    ensures reply { IfOk result (λ made. made.1.reply ≡ reply_of ctl.old.state now user.now Pass) }
    ensures entered { IfOk result (λ made.
        made.1.entered ≡ (if is_entered made.1.reply then Some made.1.reply else None)) }
    ensures moment { IfOk result (λ made. made.1.moment ≡ raised ctl.old.state now) }
    ensures after { OnOk result (ctl.new.state ≡ state_after ctl.old.state now user.now Pass) }
    ensures kept { OnOk result (ctl.new.kept ≡ kept_after ctl.old.state ctl.old.kept now user.now Pass) }
    ensures err { OnErr result (ctl.new ≡ ctl.old) }
    ensures steps { IsTickedUpTo (steps_of ctl.old.state now user.now) steps.old steps.new }
    ensures over { IfSome hint (λ hint. IsHinted hint ctl.old.state now steps.old steps.new) }
    ensures over_kept { IfNone hint (IfSome ctl.old.kept (λ kept. IsHinted kept ctl.old.state now steps.old steps.new)) }
    ensures sound { OnOk result (IsSound ctl.old.state × IsSound ctl.new.state) }
{
    match prepare(entries, user) {
        Ok(name) => {
            let decided = ctl.pass(now, user, hint, steps)?;
            Ok((name, decided))
        }
        Err(Memory) => {
            let_hint_go(hint);
            Err(Memory)
        }
    }
}

// Makes room for one entry more, and copies the name for it.
fn prepare(entries: &mut Vec<Entry>, user: &Name) -> Result<Name, Memory>
    ensures items { entries.new.items ≡ entries.old.items }
    ensures spare { OnOk result (vec_len entries.new < vec_capacity entries.new) }
    ensures name { IfOk result (λ name. name ≡ user.now) }
{
    entries.reserve(1)?;
    user.copy()
}

// Lets go of a plan that no pass was made over.
fn let_hint_go(_hint: Option<Planned>) {}

// Enters what was decided, where it was accepted, and makes the answer of it.
fn enter(
    entries: &mut Vec<Entry>,
    session: u32,
    user: Name,
    request: Request,
    decided: Decided,
) -> Answer
    requires spare { vec_len entries.old < vec_capacity entries.old }
    requires once { decided.entered ≡ (if is_entered decided.reply then Some decided.reply else None) }
    ensures reply { result.reply ≡ decided.reply }
    ensures place { result.place ≡ length entries.old.items }
    ensures entries { entries.new.items ≡ (if is_entered decided.reply
        then entries.old.items ++ record {
          session = session;
          moment = decided.moment;
          user = user;
          request = request;
          reply = decided.reply;
        } ∷ []
        else entries.old.items) }
{
    let place = entries.len() as u64;
    let Decided {
        reply,
        entered,
        moment,
    } = decided;
    match entered {
        Some(reply) => push(
            entries,
            Entry {
                session,
                moment,
                user,
                request,
                reply,
            },
        ),
        None => let_go(user, request),
    }
    Answer { reply, place }
}

// Puts an entry behind the others, which have room for it.
fn push(entries: &mut Vec<Entry>, entry: Entry)
    requires { vec_len entries.old < vec_capacity entries.old }
    ensures { entries.new.items ≡ entries.old.items ++ entry ∷ [] }
{
    entries.push(entry).unwrap();
}

// Lets go of what isn't entered.
fn let_go(_user: Name, request: Request) {
    request.let_go();
}
