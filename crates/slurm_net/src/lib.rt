//! What a server meets of the outside beside bytes: clocks, doors at which connections come, hosts that open doors and
//! dial, and gates at which a test may hold a part of it.
#![tactic(auto)]

mod clock;
mod coming;
mod counting;
mod door;
mod gate;
mod host;
mod mem_clock;
mod mem_door;
mod mem_host;
mod mem_session;
mod pending;
mod ready_listener;
mod system;
mod system_clock;
mod tcp_door;
mod tcp_host;
mod tcp_link;
mod timed_stream;

pub use clock::Clock;
pub use door::{Accepted, Cut, Door};
pub use gate::{Gate, NoGate, Point};
pub use host::{Host, ListenRefusal};
pub use mem_clock::MemClock;
pub use mem_door::MemDoor;
pub use mem_host::MemHost;
pub use mem_session::MemSession;
pub use ready_listener::ReadyListener;
pub use system_clock::SystemClock;
pub use tcp_door::TcpDoor;
pub use tcp_host::TcpHost;
pub use tcp_link::TcpLink;
pub use timed_stream::TimedStream;
