//! The tests, in files by subject.

mod bench;
mod ends;
mod events;
mod failing;
mod hostile;
mod limits;
mod modes;
mod play;
mod rows;
mod spell;
