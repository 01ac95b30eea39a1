//! Two slots as a store of one body, that a torn write can't lose.
//!
//! - [`Store`] begins on two slots, loads from them and saves to them, so that a crash at any moment leaves the body last saved
//!   or one handed in since.
//! - [`nothing_is_lost`] is the law that this holds over every list of such calls, with crashes anywhere.
//!
//! A slot is a gate (1 is open), a number from 0 to 2, the body's length in eight bytes, the highest first, and the body.
//! `specs/Slot.antt` and `specs/Store.antt` say what slots hold and which is the newer, `specs/Crashing.antt` what a crash leaves.
#![tactic(auto)]

mod body;
mod header;
mod laws;
mod newer;
mod replacing;
mod saving;
mod store;
mod target;

pub use body::LoadError;
pub use laws::nothing_is_lost;
pub use store::Store;
