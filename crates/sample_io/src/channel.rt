//! The range of raw words that one word of a row may have.

ghost use Rattle.std.specs.Prelude.{◌≡◌, ◌<◌, ◌≤◌, ◌-◌, ◌^◌, ◌↔◌, IsTrue, pos, neg_ℤ};
ghost use Rattle.sample_io.specs.Channels.{IsInChannel, IsChannel, channel_of};

/// The least and the greatest raw word of a channel.
#[derive(Clone, Copy, PartialEq, Debug)]
pub struct Channel {
    pub low: i64,
    pub high: i64,
}

impl Channel {
    /// The channel of words of this many bits in two's complement; 0 is the width of a `bool`.
    pub fn of(width: u8) -> Channel
        requires { width ≤ 40 }
        ensures is { result ≡ channel_of width }
        ensures bool { width ≡ 0 → result ≡ record { low = pos 0; high = pos 1 } }
        ensures signed { 0 < width
            → result ≡ record { low = neg_ℤ (pos (2 ^ (width - 1))); high = pos (2 ^ (width - 1) - 1) } }
        ensures channel { IsChannel result }
    {
        if width == 0 {
            return Channel { low: 0, high: 1 };
        }
        let half = 1i64 << (width - 1);
        Channel {
            low: -half,
            high: half - 1,
        }
    }

    /// Whether the channel has this raw word.
    pub(crate) fn contains(self, word: i64) -> bool
        ensures { IsTrue result ↔ IsInChannel self word }
    {
        self.low <= word && word <= self.high
    }
}
