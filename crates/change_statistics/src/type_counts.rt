//! What is counted of events by their types.
ghost use Rattle.std.specs.Prelude.{◌≡◌};
ghost use Rattle.change_statistics.specs.TypeCounting.{no_type_counts, total, with_error, with_typed};

/// What is counted of events by their raw types. A count stays at 2^64 - 1.
#[derive(Clone, Copy, Debug, PartialEq, Eq)]
pub struct TypeCounts {
    /// The number of events of each raw type.
    pub events: [u64; 256],
    /// The number of their bytes.
    pub bytes: [u64; 256],
    /// The number of errors in the places of events.
    pub errors: u64,
}

impl TypeCounts {
    /// Nothing is counted.
    pub fn none() -> Self
        ensures { result ≡ no_type_counts }
    {
        TypeCounts {
            events: [0; 256],
            bytes: [0; 256],
            errors: 0,
        }
    }

    /// The number of events of all types.
    pub fn all_events(&self) -> u64
        ensures { result ≡ total self.now.events }
    {
        total(&self.events)
    }

    /// The number of their bytes.
    pub fn all_bytes(&self) -> u64
        ensures { result ≡ total self.now.bytes }
    {
        total(&self.bytes)
    }

    /// Counts an event of this raw type and this many bytes.
    pub fn add(&mut self, event_type: u8, bytes: u64)
        ensures { self.new ≡ with_typed self.old event_type bytes }
    {
        let place = usize::from(event_type);
        self.events[place] = self.events[place].saturating_add(1);
        self.bytes[place] = self.bytes[place].saturating_add(bytes);
    }

    /// Counts an error in the place of an event.
    pub fn add_error(&mut self)
        ensures { self.new ≡ with_error self.old }
    {
        self.errors = self.errors.saturating_add(1);
    }
}

// The sum of the counts; 2^64 - 1 if it is larger.
fn total(counts: &[u64; 256]) -> u64
    ensures { result ≡ total counts.now }
{
    let mut sum: u64 = 0;
    for count in counts.iter() {
        sum = sum.saturating_add(*count);
    }
    sum
}
