//! What is lost where pieces are joined.

ghost use Rattle.std.specs.Prelude.{◌≡◌};
ghost use Rattle.sms_stream.specs.Losses.{away_then, dropped_then, no_losses};

/// How much is lost: segments that are turned away, and sets that are dropped. Each number counts to
/// its end and stays there.
#[derive(Clone, Copy)]
pub struct Losses {
    /// How many segments were turned away, since too many sets were open.
    pub turned_away: u64,
    /// How many sets were dropped, since they were old.
    pub dropped: u64,
}

impl Losses {
    /// Nothing.
    pub fn none() -> Losses
        ensures { result ≡ no_losses }
    {
        Losses {
            turned_away: 0,
            dropped: 0,
        }
    }

    /// After a piece, which was turned away or not.
    pub(crate) fn take(&mut self, is_away: bool)
        ensures { self.new ≡ away_then self.old is_away }
    {
        if is_away {
            self.turned_away = self.turned_away.saturating_add(1);
        }
    }

    /// After so many sets were dropped.
    pub(crate) fn drop_sets(&mut self, count: usize)
        ensures { self.new ≡ dropped_then self.old count }
    {
        self.dropped = self.dropped.saturating_add(count as u64);
    }
}
