//! Threads that call a coordinator: workers over a lock, and teams that divide a list of calls.
#![tactic(auto)]

mod ask;
pub mod discard;
pub mod each_pass;
pub mod gate;
pub mod laws;
pub mod moments;
pub mod order;
pub mod shares;
pub mod storage;
pub mod task;
pub mod team;
pub mod threads;
pub mod timer;

pub use discard::{Round, discard_round, resume_round};
pub use each_pass::{Work, work_on_each};
pub use gate::Gate;
pub use moments::Moments;
pub use order::{BadOrder, Order};
pub use shares::{Report, Share, spread};
pub use storage::{Storage, StorageFault};
pub use task::{Tally, task_worker};
pub use team::{InOrder, Made, Team};
pub use threads::Threads;
pub use timer::{TimerTally, timer_worker};
