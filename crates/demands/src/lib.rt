// What is demanded of the library: the sentences are in specs/Demands, which says where each is stated; that contracts as the library's meet
// them, and one outcome only, is in proofs/. The crates `calls` and `two_calls` make the calls, and ensure of them all that is demanded.
#![tactic(auto)]

use bnw::FileWritten;
use bonds::Reading;
use census::Histogram;
use network::Refusal;

// What a reading and a writing answered, whichever came first.
#[derive(Drop)]
pub struct ReadAndWritten {
    pub reading: Reading,
    pub writing: FileWritten,
}

// What reading a molfile answered, writing its network as a network file, and reading this.
#[derive(Drop)]
pub struct ReadAndWrittenAndRead {
    pub reading: Reading,
    pub writing: FileWritten,
    pub again: Reading,
}

// What a renumbering answered, and what listing or counting the network as it was and as renumbered.
#[derive(Drop)]
pub struct HereAndThere {
    pub renumbering: Result<(), Refusal>,
    pub here: Result<Histogram, Refusal>,
    pub there: Result<Histogram, Refusal>,
}
