//! What stays true of every state, whatever happens. A law is the contract of a function that does nothing.

ghost use Rattle.std.specs.Prelude.{AllPairs};
ghost use Rattle.ctl_state.specs.State.{State};
ghost use Rattle.ctl_state.specs.Holding.{AreApart, parts_of};
ghost use Rattle.ctl_state.specs.Laws;
ghost use Rattle.ctl_state.specs.Soundness.{IsSound};

use node_state::partition_laws::a_state_leaves_the_rest;

/// An event that starts nothing keeps all sound: each job that stays keeps some of its parts.
pub fn letting_go_keeps_all_sound()
    ensures { Laws.LettingGo }
{}

/// A waiting job that takes free parts keeps all sound.
pub fn taking_keeps_all_sound()
    ensures { Laws.Taking }
{}

/// What is held grows by just what a waiting job takes.
pub fn what_is_taken_is_counted()
    ensures times { Laws.TakenTimes }
    ensures mem { Laws.TakenMem }
    ensures counts { Laws.TakenCounts }
{}

/// Whoever waited before a start of another waits after it.
pub fn others_wait_on()
    ensures { Laws.OthersWait }
{}

/// Nodes that stay as they are configured keep all sound, where none goes down, or nothing is held of those that are.
pub fn nodes_that_stay_keep_all_sound()
    ensures stay { Laws.NodesStay }
    ensures hold { Laws.NodesHold }
{}

/// A partition in another state keeps all sound.
pub fn states_of_partitions_keep_all_sound()
    ensures { Laws.PartitionStates }
{
    a_state_leaves_the_rest();
}

/// Time that passes keeps all sound.
pub fn time_keeps_all_sound()
    ensures { Laws.Passing }
{}

/// Other reservations keep all sound.
pub fn reservations_keep_all_sound()
    ensures { Laws.Reserving }
{}

/// A shutdown keeps all sound.
pub fn a_shutdown_keeps_all_sound()
    ensures { Laws.Shutting }
{}

/// The same where every job stays, and what is left of the plan then.
pub fn changing_keeps_all_sound()
    ensures sound { Laws.Changing }
    ensures plan { Laws.PlansLeft }
{}

/// Pending jobs that are added with the next numbers keep all sound.
pub fn added_jobs_keep_all_sound()
    ensures { Laws.Adding }
{}

/// A sum of sizes within its bound keeps all sound.
pub fn sizes_keep_all_sound()
    ensures { Laws.Sizing }
{}

/// Whoever is charged, all stays sound.
pub fn charging_keeps_all_sound()
    ensures { Laws.Charging }
{}

/// Another plan of pending jobs keeps all sound.
pub fn plans_keep_all_sound()
    ensures { Laws.Planning }
{}

/// Whatever change but a start lets go.
pub fn every_change_but_a_start_lets_go()
    ensures { Laws.ChangesLetGo }
{}

/// Time that passes takes nothing from what is kept of a job; what lets go keeps it, nothing lets go, and so do two one
/// after another.
pub fn jobs_are_kept()
    ensures later { Laws.KeptLater }
    ensures let_go { Laws.KeptOn }
    ensures same { Laws.LetsGoNothing }
    ensures twice { Laws.LetsGoTwice }
{}

/// No two parts, of one job or of two, share a processor.
pub fn no_two_parts_share_a_processor()
    ensures { (s : State) → IsSound s → AllPairs AreApart (parts_of s.jobs) }
{}

/// The nodes that a job may get are nodes that there are, each once, and so are those that reservations leave it.
pub fn jobs_get_nodes_that_are_there()
    ensures nodes { Laws.JobNodes }
    ensures places { Laws.PlacesThere }
{}

/// A list in order has the elements of the list, and a stable sort makes it.
pub fn a_stable_sort_makes_the_order<T>()
    ensures moves { Laws.OrderMoves T }
    ensures apart { Laws.OrderKeepsApart T }
    ensures sorted { Laws.SortOrders T }
{}

/// The index of what is held goes on showing it: what a waiting job takes is held, and what is given back isn't. What a
/// part holds is held.
pub fn the_index_shows_what_is_held()
    ensures taking { Laws.TakingShows }
    ensures giving { Laws.GivingShows }
    ensures parts { Laws.PartsAreShown }
{}

/// Events that drop no part, and added jobs that hold nothing, leave the parts as they were.
pub fn parts_stay()
    ensures stay { Laws.PartsStay }
    ensures added { Laws.AddedHoldNothing }
{}
