//! How many jobs wait, as a line of steps.

ghost use Rattle.std.specs.Prelude.{◌≡◌, ◌++◌, ◌+◌, ◌<◌, ◌≤◌, OnOk, decimal, drop, length};
ghost use Rattle.replay_picture.specs.Scale.{waiting_height};
ghost use Rattle.replay_picture.specs.Shapes.{words_text};
ghost use Rattle.replay_picture.specs.Waiting.{is_overtaken, line_text, most_waiting, scale_text, step_text, steps_text, waiting_text, y_of};

use crate::data::{Period, WaitingStep};
use crate::scale::{PLOT_LEFT, PLOT_WIDTH, WAITING_HEIGHT, waiting_bottom, waiting_top, x_of};
use crate::shapes::push_words;
use itoa::Buffer;
use small_texts::memory_error::Memory;
use small_texts::pieces::{push_labelled, push_text};

fn most_waiting(steps: &[WaitingStep]) -> u32
    ensures { result ≡ most_waiting steps.now }
{
    steps.iter().fold(0, |most, step| most.max(step.jobs))
}

// Where so many jobs stand, of the most.
#[tactic(auto, unfolding(crate::specs::Scale::waiting_height))]
fn y_of(bottom: u64, most: u32, jobs: u32) -> u64
    ensures { result ≡ y_of bottom most jobs }
{
    bottom.saturating_sub(u64::from(jobs) * WAITING_HEIGHT / u64::from(most.max(1)))
}

fn is_overtaken(period: &Period, step: &WaitingStep, others: &[WaitingStep]) -> bool
    ensures { result ≡ is_overtaken period.now step.now others.now }
{
    match others {
        [] => false,
        [next, ..] => x_of(period, step.moment.get()) == x_of(period, next.moment.get()),
    }
}

fn push_step(
    out: &mut Vec<u8>,
    period: &Period,
    bottom: u64,
    most: u32,
    step: &WaitingStep,
) -> Result<(), Memory>
    ensures { OnOk result (out.new.items ≡ out.old.items ++ step_text period.now bottom most step.now) }
{
    push_labelled(out, b"H", x_of(period, step.moment.get()))?;
    push_labelled(out, b"V", y_of(bottom, most, step.jobs))
}

// Those behind the step at a place.
fn behind(steps: &[WaitingStep], place: usize) -> &[WaitingStep]
    requires { place < length steps.now }
    ensures { result.now ≡ drop (place + 1) steps.now }
{
    &steps[place + 1..]
}

// Writes the steps that aren't overtaken: a few thousand at the most, since each has a place of its own.
fn push_steps(
    out: &mut Vec<u8>,
    period: &Period,
    bottom: u64,
    most: u32,
    steps: &[WaitingStep],
) -> Result<(), Memory>
    ensures { OnOk result (out.new.items ≡ out.old.items ++ steps_text period.now bottom most steps.now) }
{
    for (place, step) in steps.iter().enumerate() {
        if !is_overtaken(period, step, behind(steps, place)) {
            push_step(out, period, bottom, most, step)?;
        }
    }
    Ok(())
}

#[tactic(auto, unfolding(crate::specs::Waiting::line_text, crate::specs::Scale::plot_left, crate::specs::Scale::plot_width))]
fn push_line(
    out: &mut Vec<u8>,
    nodes: u16,
    period: &Period,
    most: u32,
    steps: &[WaitingStep],
) -> Result<(), Memory>
    requires { most ≡ most_waiting steps.now }
    ensures { OnOk result (out.new.items ≡ out.old.items ++ line_text nodes period.now steps.now) }
{
    let bottom = waiting_bottom(nodes);
    push_labelled(out, b"<path class='w' d='M", PLOT_LEFT)?;
    push_labelled(out, b" ", bottom)?;
    push_steps(out, period, bottom, most, steps)?;
    push_labelled(out, b"H", PLOT_LEFT + PLOT_WIDTH)?;
    push_labelled(out, b"V", bottom)?;
    push_text(out, b"Z'/>\n")?;
    Ok(())
}

fn push_count(out: &mut Vec<u8>, x: u64, y: u64, count: u64) -> Result<(), Memory>
    ensures { OnOk result (out.new.items ≡ out.old.items ++ words_text x y (decimal count)) }
{
    let mut digits = Buffer::new();
    push_words(out, x, y, digits.format(count).as_bytes())
}

#[tactic(auto, unfolding(crate::specs::Waiting::scale_text, crate::specs::Scale::plot_left))]
fn push_scale(out: &mut Vec<u8>, nodes: u16, most: u32) -> Result<(), Memory>
    ensures { OnOk result (out.new.items ≡ out.old.items ++ scale_text nodes most) }
{
    let top = waiting_top(nodes);
    push_text(out, b"<g class='n'>")?;
    push_count(out, PLOT_LEFT - 40, top + 80, u64::from(most))?;
    push_words(out, PLOT_LEFT - 40, top + 500, b"waiting")?;
    push_words(out, PLOT_LEFT - 40, waiting_bottom(nodes), b"0")?;
    push_text(out, b"</g>\n")?;
    Ok(())
}

/// Writes how many jobs wait over time.
#[tactic(auto, unfolding(crate::specs::Waiting::waiting_text))]
pub(crate) fn push_waiting(
    out: &mut Vec<u8>,
    nodes: u16,
    period: &Period,
    steps: &[WaitingStep],
) -> Result<(), Memory>
    ensures { OnOk result (out.new.items ≡ out.old.items ++ waiting_text nodes period.now steps.now) }
{
    let most = most_waiting(steps);
    push_line(out, nodes, period, most, steps)?;
    push_scale(out, nodes, most)
}
