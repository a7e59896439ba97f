//! What lies under the lock of a channel: the core, the history of the calls on its line, and the notices.
//!
//! A call lends the core to one step of `kanal_events` and has the call kept by the channel's `History`. Nothing here
//! takes the lock or waits. A `WaiterHandle` wakes who waits, but only by evidence that the lock was released.
#![tactic(auto)]

pub mod answers;
mod call;
mod call_context;
mod counted;
mod history;
mod none;
mod released;
mod side;
mod state;
mod wait_result;
mod waiter_handle;

pub use call::Call;
pub use call_context::CallContext;
pub use counted::{
    CountedHandle, CountedReceiver, CountedSender, CountedWait, FirstHandles, GoneWaits, MustDrain,
    Notices, OtherResult,
};
pub use history::History;
pub use none::NoHistory;
pub use released::{Deferred, Released};
pub use side::{OfSide, ReceiveSide, SendSide};
pub use state::{DropResult, State, TakenOut, WaitStart};
pub use wait_result::WaitResult;
pub use waiter_handle::{Core, LeftWaits, WaiterHandle, ends};
