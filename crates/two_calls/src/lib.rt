// Calls of the library, made one after the other, and ensured of them all that is demanded of them together (`demands`); none requires
// anything. A file is read and written again in files, a network renumbered and listed in renumbering; each call by itself is in `calls`.
#![tactic(auto)]

pub mod files;
pub mod renumbering;
