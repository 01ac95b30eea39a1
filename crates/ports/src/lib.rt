//! The outside: what is read, written and kept, as two traits with ghost content.
//!
//! - `Desk` has two inlets and two outlets; `Slots` has two numbered byte lists that outlive the process.
//! - `MemDesk` and `MemSlots` stand in memory and fail on demand; `FileDesk` and `FileSlots` are the real ones.
//! - `read_to_end` and `write_all` work over any desk.
//! - `Posts` decides what becomes of the reports of grunts, `Gate` is passed by them on their way.
#![tactic(auto)]

mod buffers;
mod calls;
mod desk;
mod file_desk;
mod file_slots;
mod files;
mod gate;
mod memory_desk;
mod memory_slots;
mod posts;
mod record;
mod room;
mod slot_file;
mod slots;
mod transfer;

pub use desk::{Desk, Failed, Inlet, Outlet};
pub use file_desk::FileDesk;
pub use file_slots::FileSlots;
pub use gate::{Gate, OpenGate, Point};
pub use memory_desk::MemDesk;
pub use memory_slots::MemSlots;
pub use posts::{Fate, PlainPosts, Posts};
pub use record::{SlotCall, SlotEntry};
pub use room::Room;
pub use slots::Slots;
pub use transfer::{ReadError, read_to_end, write_all};
