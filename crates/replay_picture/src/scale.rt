//! Where things stand in the picture.

ghost use Rattle.std.specs.Prelude.{◌≡◌, ◌<◌, ◌≤◌, ◌+◌};
ghost use Rattle.replay_picture.specs.Scale.{most_nodes, picture_height, plot_left, plot_width, row_height, rows_bottom, rows_top, seconds_of, waiting_bottom, waiting_height, waiting_top, x_of};

use crate::data::Period;

/// The plot begins right of the nodes' names. Lengths are tenths of a unit.
pub(crate) const PLOT_LEFT: u64 = 800;

pub(crate) const PLOT_WIDTH: u64 = 10_600;

/// The rows of nodes begin below the legend.
pub(crate) const ROWS_TOP: u64 = 600;

pub(crate) const WAITING_HEIGHT: u64 = 1000;

/// The most nodes that are drawn.
pub(crate) const MOST_NODES: usize = 10_000;

/// The seconds of a period.
pub(crate) fn seconds_of(period: &Period) -> u64
    ensures is { result ≡ seconds_of period.now }
    ensures small { result ≤ 253_402_300_799 }
{
    period.last.get().saturating_sub(period.first.get())
}

/// Where a moment stands; one that lies outside stands at the edge.
#[tactic(auto, using(crate::proofs::Sizes::share_fits), unfolding(crate::specs::Scale::plot_left, crate::specs::Scale::plot_width))]
pub(crate) fn x_of(period: &Period, moment: u64) -> u64
    ensures is { result ≡ x_of period.now moment }
    ensures small { result ≤ 11_400 }
{
    let seconds = seconds_of(period);
    let behind = moment.saturating_sub(period.first.get()).min(seconds);
    PLOT_LEFT + behind * PLOT_WIDTH / seconds.max(1)
}

/// How high a row is where there are so many nodes.
pub(crate) fn row_height(nodes: u16) -> u16
    ensures is { result ≡ row_height nodes }
    ensures small { (20 ≤ result) × (result ≤ 400) }
{
    (9600 / nodes.max(1)).min(400).max(20)
}

/// Where the rows of so many nodes end.
#[tactic(auto, using(crate::proofs::Sizes::rows_fit), unfolding(crate::specs::Scale::rows_top))]
pub(crate) fn rows_bottom(nodes: u16) -> u64
    ensures is { result ≡ rows_bottom nodes }
    ensures small { result < 30_000_000 }
{
    ROWS_TOP + u64::from(nodes) * u64::from(row_height(nodes))
}

pub(crate) fn waiting_top(nodes: u16) -> u64
    ensures is { result ≡ waiting_top nodes }
    ensures small { result < 30_001_000 }
{
    rows_bottom(nodes) + 300
}

#[tactic(auto, unfolding(crate::specs::Scale::waiting_height))]
pub(crate) fn waiting_bottom(nodes: u16) -> u64
    ensures is { result ≡ waiting_bottom nodes }
    ensures small { (waiting_height ≤ result) × (result < 30_003_000) }
{
    waiting_top(nodes) + WAITING_HEIGHT
}

pub(crate) fn picture_height(nodes: u16) -> u64
    ensures { result ≡ picture_height nodes }
{
    waiting_bottom(nodes) + 100
}
