//! How many transactions have which size.
ghost use Rattle.std.specs.Prelude.{◌≡◌, replicate};
ghost use Rattle.change_statistics.specs.Transactions.{sizes_with};

use crate::table_counts::counted_if;

/// How many classes of sizes there are.
pub const SIZE_CLASSES: usize = 65;

/// How many transactions have which size: by the number of the binary digits of their bytes.
#[derive(Clone, Copy, Debug, PartialEq, Eq)]
pub struct SizeHistogram {
    /// The numbers of transactions: first of those with no byte, and then from one power of two to before the next.
    pub counts: [u64; SIZE_CLASSES],
}

impl SizeHistogram {
    /// Nothing is counted.
    pub fn none() -> Self
        ensures { result.counts ≡ replicate 65 0 }
    {
        SizeHistogram {
            counts: [0; SIZE_CLASSES],
        }
    }

    /// Counts a transaction of this size.
    pub fn add(&mut self, bytes: u64)
        ensures { self.new.counts ≡ sizes_with bytes self.old.counts }
    {
        let class = (u64::BITS - bytes.leading_zeros()) as usize;
        self.counts[class] = counted_if(true, self.counts[class]);
    }
}
