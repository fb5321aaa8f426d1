use rules::fault::PlacingFault;

// What a burst led to.
#[derive(Clone, Copy)]
pub struct Burst {
    // how many of its quotes were taken
    pub taken: usize,
    // how many slips they wrote, into the caller's places
    pub written: usize,
    // why the next quote was not taken, if there is one
    pub stop: Option<PlacingFault>,
}
