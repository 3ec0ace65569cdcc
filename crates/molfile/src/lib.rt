// The molfile: where its numbers stand. What it means is in specs/; the crate molfile_reader has the code.
#![tactic(auto)]

// The lines before the counts line.
pub const HEADER: usize = 3;

// The columns of a counts line, and those of a bond line that are read.
pub const COUNTS: usize = 39;

pub const BOND: usize = 6;

// Where the two numbers of a line stand, and "V2000".
pub const FIRST_AT: usize = 0;

pub const SECOND_AT: usize = 3;

pub const VERSION_AT: usize = 34;
