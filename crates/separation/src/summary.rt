// What is known of the nets that are active on some lines: enough to decide, for every net, whether another one is active there.
ghost use Rattle.std.specs.Prelude.{◌≡◌, ◌||◌, ℕ};
ghost use Rattle.separation.specs.Inner.Summaries.{summary_has_other, summary_of_word};

// No net, one, or at least two different ones. The Rust stores two of them; it does not matter which, since of two different nets at least one is not the excluded net.
#[derive(Clone, Copy, PartialEq, Eq, Debug)]
pub enum NetSummary {
    Nothing,
    One(u32),
    Two,
}

impl NetSummary {
    // The summary of two ranges together.
    pub fn merged(self, right: NetSummary) -> NetSummary
        ensures { (n : ℕ) → summary_has_other result n ≡ (summary_has_other self n || summary_has_other right n) }
    {
        match self {
            NetSummary::Nothing => right,
            NetSummary::One(first) => match right {
                NetSummary::Nothing => self,
                NetSummary::One(second) => {
                    if second == first {
                        self
                    } else {
                        NetSummary::Two
                    }
                }
                NetSummary::Two => right,
            },
            NetSummary::Two => self,
        }
    }

    // Whether some net of the summary is not the excluded one.
    pub fn has_other(self, excluded: u32) -> bool
        ensures { result ≡ summary_has_other self excluded }
    {
        match self {
            NetSummary::Nothing => false,
            NetSummary::One(first) => first != excluded,
            NetSummary::Two => true,
        }
    }
}

// A summary as a word: 0 is no net, a net plus 1 is that net, and any greater word is two nets.
impl From<u64> for NetSummary {
    ghost from_gives = { λ word summary. summary ≡ summary_of_word word };

    fn from(word: u64) -> NetSummary {
        if word == 0 {
            return NetSummary::Nothing;
        }
        match u32::try_from(word - 1) {
            Ok(net) => NetSummary::One(net),
            Err(_) => NetSummary::Two,
        }
    }
}

// The least word of a summary.
impl From<NetSummary> for u64 {
    ghost from_gives = { λ summary word. summary_of_word word ≡ summary };

    fn from(summary: NetSummary) -> u64 {
        match summary {
            NetSummary::Nothing => 0,
            NetSummary::One(net) => u64::from(net) + 1,
            NetSummary::Two => u64::from(u32::MAX) + 2,
        }
    }
}

// The word of two ranges together.
pub fn merged_word(low: u64, high: u64) -> u64
    ensures { (n : ℕ) → summary_has_other (summary_of_word result) n ≡ (summary_has_other (summary_of_word low) n || summary_has_other (summary_of_word high) n) }
{
    let left = NetSummary::from(low);
    let right = NetSummary::from(high);
    u64::from(left.merged(right))
}
