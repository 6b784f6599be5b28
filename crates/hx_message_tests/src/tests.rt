//! The tests, in files by subject.

mod answers;
mod connections;
mod frames;
mod heads;
mod links;
mod numbers;
mod pipes;
