// The lags at 4 kHz that go on to stage 2.
#![tactic(auto)]

ghost use Rattle.std.specs.Prelude.{◌≡◌, ◌≤◌, take};

// The lags at 4 kHz that were kept, best first: the first `count` of `lags`. The other places are 0. An array and a count, since nothing allocates.
#[derive(Clone, Copy)]
pub struct Candidates {
    pub lags: [usize; 8],
    pub count: usize,
    pub ghost within: { count ≤ 8 },
}

impl Candidates {
    // The lags that were kept.
    pub fn as_slice(&self) -> &[usize]
        ensures { result.now ≡ take self.now.count self.now.lags }
    {
        &self.lags[..self.count]
    }
}
