// The ten lists and the five counts of a complex by their numbers in stored lines.
ghost use Rattle.std.specs.Prelude.{◌≡◌};
ghost use Rattle.replay_lists.specs.Names.{name_of, count_name_of};

// One of the ten lists.
#[derive(Clone, Copy, Debug, PartialEq, Eq)]
pub enum ListName {
    Pents,
    Edges,
    Triangles,
    Tets,
    TriToPentsItems,
    TriToPentsStarts,
    EdgeToTrisItems,
    EdgeToTrisStarts,
    EdgeToPentsItems,
    EdgeToPentsStarts,
}

// A number that no list has.
#[derive(Clone, Copy, Debug, PartialEq, Eq)]
pub struct NoList(pub u64);

impl TryFrom<u64> for ListName {
    type Error = NoList;

    ghost try_from_gives = { λ n name. name ≡ name_of n };

    #[tactic(auto, unfolding(crate::specs::Names::name_of))]
    fn try_from(n: u64) -> Result<ListName, NoList> {
        match n {
            0 => Ok(ListName::Pents),
            1 => Ok(ListName::Edges),
            2 => Ok(ListName::Triangles),
            3 => Ok(ListName::Tets),
            4 => Ok(ListName::TriToPentsItems),
            5 => Ok(ListName::TriToPentsStarts),
            6 => Ok(ListName::EdgeToTrisItems),
            7 => Ok(ListName::EdgeToTrisStarts),
            8 => Ok(ListName::EdgeToPentsItems),
            9 => Ok(ListName::EdgeToPentsStarts),
            _ => Err(NoList(n)),
        }
    }
}

// One of the five counts.
#[derive(Clone, Copy, Debug, PartialEq, Eq)]
pub enum CountName {
    Vertices,
    Pentachorons,
    Edges,
    Triangles,
    Tets,
}

// A number that no count has.
#[derive(Clone, Copy, Debug, PartialEq, Eq)]
pub struct NoCount(pub usize);

impl TryFrom<usize> for CountName {
    type Error = NoCount;

    ghost try_from_gives = { λ n name. name ≡ count_name_of n };

    #[tactic(auto, unfolding(crate::specs::Names::count_name_of))]
    fn try_from(n: usize) -> Result<CountName, NoCount> {
        match n {
            0 => Ok(CountName::Vertices),
            1 => Ok(CountName::Pentachorons),
            2 => Ok(CountName::Edges),
            3 => Ok(CountName::Triangles),
            4 => Ok(CountName::Tets),
            _ => Err(NoCount(n)),
        }
    }
}
