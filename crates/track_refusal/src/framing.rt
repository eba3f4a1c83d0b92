// The sizes of a track's frames, and the frames in a count of samples.
ghost use Rattle.std.specs.Prelude.{◌≡◌, ◌<◌, ◌≤◌};
ghost use Rattle.pitch_settings.specs.Settings.{frame_length, hop_length};
ghost use Rattle.track_paper.specs.Paper.{frame_count};

use pitch_settings::Analysed;

// The samples of a frame, and those from its start to the next one's.
#[derive(Clone, Copy)]
pub struct Framing {
    pub length: usize,
    pub hop: usize,
    pub ghost some: { 0 < hop },
    pub ghost within: { hop ≤ length },
}

impl Framing {
    // F(n): the frames in n samples.
    #[tactic(auto, unfolding(track_paper::specs::Paper::frame_count))]
    pub fn frames_in(self, n: usize) -> usize
        ensures { result ≡ frame_count self.length self.hop n }
    {
        if n < self.length {
            return 0;
        }
        1 + (n - self.length) / self.hop
    }
}

impl From<Analysed> for Framing {
    ghost from_gives = { λ s f. (f.length ≡ frame_length s.settings) × (f.hop ≡ hop_length s.settings) };

    fn from(s: Analysed) -> Framing {
        Framing {
            length: s.frame_length(),
            hop: s.hop_length(),
        }
    }
}
