//! The tests, in files by subject.

mod broken;
mod check;
mod configurations;
mod readings;
mod scripts;
mod transcripts;
