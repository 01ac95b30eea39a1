//! The boss beside the plain book, by calls and by tapes.

mod acts;
mod drawn;
mod frames;
mod spoken;
mod tapes;
mod texts;
