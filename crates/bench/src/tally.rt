// What was done on a relay: how many operations were begun, and how many rounds of post, land and fetch they took; how many
// rounds were refused; and a sum of what the operations answered.
#[derive(Clone, Copy)]
pub(crate) struct Tally {
    pub(crate) begun: u64,
    pub(crate) rounds: u64,
    pub(crate) refused: u64,
    pub(crate) sum: u64,
}

impl Tally {
    pub(crate) fn zero() -> Tally {
        Tally {
            begun: 0,
            rounds: 0,
            refused: 0,
            sum: 0,
        }
    }

    // One more operation was begun.
    pub(crate) fn begin(&mut self) {
        self.begun = self.begun.wrapping_add(1);
    }

    // One more round was made.
    pub(crate) fn round(&mut self) {
        self.rounds = self.rounds.wrapping_add(1);
    }

    // One more round was refused.
    pub(crate) fn refuse(&mut self) {
        self.refused = self.refused.wrapping_add(1);
    }

    // An operation answered this.
    pub(crate) fn add(&mut self, answer: u64) {
        self.sum = self.sum.wrapping_add(answer);
    }

    // Writes the four numbers, eight bytes each, lowest byte first, into a report of 32 bytes.
    pub(crate) fn write(self, report: &mut [u8]) {
        if report.len() != 32 {
            return;
        }
        report[..8].copy_from_slice(&self.begun.to_le_bytes());
        report[8..16].copy_from_slice(&self.rounds.to_le_bytes());
        report[16..24].copy_from_slice(&self.refused.to_le_bytes());
        report[24..].copy_from_slice(&self.sum.to_le_bytes());
    }
}
