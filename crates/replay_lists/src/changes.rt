// What a stored line changes of a complex before or after a call.
ghost use Rattle.std.specs.Prelude.{◌≡◌};
ghost use Rattle.replay_lists.specs.Changes.{target_of, change_of, with_count, counts_after, lists_after};

use crate::{CountName, ListName, Lists};
use complex::Counts;

// What a change is made to.
#[derive(Clone, Copy, Debug, PartialEq, Eq)]
pub enum Target {
    // One of the ten lists.
    List(ListName),
    // The counts.
    Counts,
    // What a program has beside them.
    Further,
    Nothing,
}

impl From<u64> for Target {
    ghost from_gives = { λ n target. target ≡ target_of n };

    #[tactic(auto, unfolding(crate::specs::Changes::target_of, crate::specs::Changes::target_named))]
    fn from(n: u64) -> Target {
        match n {
            10 => Target::Counts,
            11 => Target::Further,
            _ => ListName::try_from(n).map_or(Target::Nothing, Target::List),
        }
    }
}

// A place of something, and the number that is put there.
#[derive(Clone, Copy, Debug, PartialEq, Eq)]
pub struct Change {
    pub target: Target,
    pub place: usize,
    pub n: u32,
}

// 16 bits for what is changed, 16 for the place, 32 for the number that is put there.
impl From<u64> for Change {
    ghost from_gives = { λ n change. change ≡ change_of n };

    #[tactic(auto, unfolding(crate::specs::Changes::change_of))]
    fn from(n: u64) -> Change {
        Change {
            target: Target::from(n / 0x1_0000_0000_0000),
            place: (n / 0x1_0000_0000 % 0x1_0000) as usize,
            n: (n % 0x1_0000_0000) as u32,
        }
    }
}

// The counts with another one of a name.
#[tactic(auto, unfolding(crate::specs::Changes::with_count))]
pub fn with_count(counts: Counts, name: CountName, n: usize) -> Counts
    ensures { result ≡ with_count counts name n }
{
    match name {
        CountName::Vertices => Counts {
            vertices: n,
            ..counts
        },
        CountName::Pentachorons => Counts {
            pentachorons: n,
            ..counts
        },
        CountName::Edges => Counts { edges: n, ..counts },
        CountName::Triangles => Counts {
            triangles: n,
            ..counts
        },
        CountName::Tets => Counts { tets: n, ..counts },
    }
}

impl Change {
    // The counts after it. A place that no count has changes none.
    #[tactic(auto, unfolding(crate::specs::Changes::counts_at, crate::specs::Changes::counts_by))]
    pub fn counts(self, before: Counts) -> Counts
        ensures { result ≡ counts_after self before }
    {
        match self.target {
            Target::Counts => match CountName::try_from(self.place) {
                Ok(name) => with_count(before, name, self.n as usize),
                Err(_) => before,
            },
            _ => before,
        }
    }

    // Makes it to the list that it is of, if it is of one.
    #[tactic(auto, unfolding(crate::specs::Changes::made_at))]
    pub fn make<const N: usize>(self, lists: &mut Lists<N>)
        ensures { lists.new ≡ lists_after self lists.old }
    {
        if let Target::List(name) = self.target {
            lists.put(name, self.place, self.n);
        }
    }
}
