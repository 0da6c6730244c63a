//! The moments of the axis.

ghost use Rattle.std.specs.Prelude.{◌≡◌, ◌++◌, ◌+◌, ◌<◌, ◌≤◌, ◌^◌, OnOk};
ghost use Rattle.small_texts.specs.Moment.{moment_text};
ghost use Rattle.replay_picture.specs.Axis.{axis_text, first_moment, least_step, mark_text, mark_within, marks_text, step_of};
ghost use Rattle.replay_picture.specs.Shapes.{words_text};

use crate::data::Period;
use crate::scale::{ROWS_TOP, rows_bottom, seconds_of, waiting_bottom, x_of};
use crate::shapes::push_words;
use small_texts::memory_error::Memory;
use small_texts::moment::print_moment;
use small_texts::pieces::{push_labelled, push_text};

// People count in these seconds.
const STEPS: [u32; 22] = [
    1, 2, 5, 10, 30, 60, 120, 300, 600, 1800, 3600, 7200, 10_800, 21_600, 43_200, 86_400, 172_800,
    604_800, 1_209_600, 2_592_000, 7_776_000, 31_536_000,
];

// The first of these that isn't below a seventh of the period, or else that.
fn least_step(seventh: u64, steps: &[u32]) -> u64
    requires { seventh < 2 ^ 36 }
    ensures is { result ≡ least_step seventh steps.now }
    ensures small { result < 2 ^ 36 }
{
    for step in steps {
        if seventh <= u64::from(*step) {
            return u64::from(*step);
        }
    }
    seventh
}

// Seconds from one moment to the next, so that a period has eight at the most.
#[tactic(auto, unfolding(crate::specs::Axis::step_of, crate::specs::Axis::steps))]
fn step_of(period: &Period) -> u64
    ensures is { result ≡ step_of period.now }
    ensures small { (0 < result) × (result < 2 ^ 36) }
{
    least_step(seconds_of(period).div_ceil(7), &STEPS).max(1)
}

#[tactic(auto, unfolding(crate::specs::Axis::first_moment))]
fn first_moment(period: &Period) -> u64
    ensures is { result ≡ first_moment period.now }
    ensures small { result < 2 ^ 39 }
{
    let step = step_of(period);
    period.first.get().div_ceil(step) * step
}

fn push_words_of_moment(out: &mut Vec<u8>, x: u64, y: u64, moment: u64) -> Result<(), Memory>
    requires { moment ≤ 253_402_300_799 }
    ensures { OnOk result (out.new.items ≡ out.old.items ++ words_text x y (moment_text moment)) }
{
    let mut text = [0; 19];
    print_moment(moment, &mut text);
    push_words(out, x, y, &text)
}

// A line through the rows and the waiting jobs, and the moment between them.
#[tactic(auto, unfolding(crate::specs::Axis::mark_text, crate::specs::Scale::rows_top))]
fn push_mark(out: &mut Vec<u8>, nodes: u16, period: &Period, moment: u64) -> Result<(), Memory>
    requires { moment ≤ 253_402_300_799 }
    ensures { OnOk result (out.new.items ≡ out.old.items ++ mark_text nodes period.now moment) }
{
    let x = x_of(period, moment);
    push_labelled(out, b"<path d='M", x)?;
    push_labelled(out, b" ", ROWS_TOP)?;
    push_labelled(out, b"V", waiting_bottom(nodes))?;
    push_text(out, b"'/>")?;
    push_words_of_moment(out, x, rows_bottom(nodes) + 160, moment)
}

fn push_mark_within(
    out: &mut Vec<u8>,
    nodes: u16,
    period: &Period,
    moment: u64,
) -> Result<(), Memory>
    ensures { OnOk result (out.new.items ≡ out.old.items ++ mark_within nodes period.now moment) }
{
    if moment <= period.last.get() {
        push_mark(out, nodes, period, moment)?;
    }
    Ok(())
}

// The marks that stand within the period.
fn push_marks(out: &mut Vec<u8>, nodes: u16, period: &Period) -> Result<(), Memory>
    ensures { OnOk result (out.new.items ≡ out.old.items ++ marks_text 8 nodes period.now (first_moment period.now)) }
{
    let step = step_of(period);
    let mut moment = first_moment(period);
    for _ in 0..8_u32 {
        push_mark_within(out, nodes, period, moment)?;
        moment += step;
    }
    Ok(())
}

/// Writes the axis: eight moments at the most.
#[tactic(auto, unfolding(crate::specs::Axis::axis_text))]
pub(crate) fn push_axis(out: &mut Vec<u8>, nodes: u16, period: &Period) -> Result<(), Memory>
    ensures { OnOk result (out.new.items ≡ out.old.items ++ axis_text nodes period.now) }
{
    push_text(out, b"<g class='a'>")?;
    push_marks(out, nodes, period)?;
    push_text(out, b"</g>\n")
}
