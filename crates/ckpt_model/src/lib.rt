//! What a coordinator is: the definitions that its contracts cite, and its laws.
//!
//! `specs/State.antt` has the state of a coordinator, `specs/Refusals.antt` says which calls are
//! refused, `specs/Steps.antt` what each other call does and returns, `specs/Soundness.antt` what
//! holds at each moment, and [`laws`] what holds over all lists of calls. `specs/WorkedExamples.antt`
//! has lists of calls with their answers, which the definitions compute. Nothing here reads how a
//! coordinator is kept: `ckpt_core` has that code, and proves that it makes these steps.
#![tactic(auto)]

mod faults;
mod image;
pub mod laws;
pub mod mode;
mod reads;

pub use faults::{CoreFault, OpenFault};
pub use image::{Image, Saved};
pub use mode::Mode;
pub use reads::{Live, Standing};
