// The ten lists of a complex as the replay programs own and lend them, and the changes that a stored line makes.
#![tactic(auto)]

mod changes;
mod names;

ghost use Rattle.std.specs.Prelude.{◌≡◌, ◌≤◌, map, length, take};
ghost use Rattle.std.specs.Borrow.{sem};
ghost use Rattle.lists.specs.Lists.{upto};
ghost use Rattle.complex.specs.Lent.{lists_of, lists_in};
ghost use Rattle.replay.specs.Filled.{word_of, pattern_at};
ghost use Rattle.replay_lists.specs.Lending.{LendsList};
ghost use Rattle.replay_lists.specs.Owned.{zeros_of, lent, put_in, with_room, all_of, lent_of, list_of, with_list};

pub use changes::{Change, Target, with_count};
use complex::{AdjacencyList, Complex, Counts, ListsMut};
pub use names::{CountName, ListName, NoCount, NoList};
use replay::{fill_pattern, first, put};

// ---- a list

// Fills the first n places of a list with the pattern that they have before a call.
// A function of its own: with the list cut in `patterned`, the proof of what is lent doesn't close by the search.
fn fill_first(list: &mut [u32], n: usize)
    requires { n ≤ length list.old }
    ensures len { length list.new ≡ length list.old }
    ensures table { take n list.new ≡ map (λ i. word_of (pattern_at i)) (upto n) }
{
    fill_pattern(&mut list[..n]);
}

// A list of N numbers, of which as many are lent as there is room for, all where that is more: an array, as memory is fixed.
#[derive(Clone, Copy)]
pub struct LentList<const N: usize> {
    pub numbers: [u32; N],
    pub room: usize,
}

impl<const N: usize> LentList<N> {
    // A list of zeros.
    pub fn zeros(room: usize) -> Self
        ensures { result ≡ zeros_of N room }
    {
        LentList {
            numbers: [0; N],
            room,
        }
    }

    // A list whose lent places have the pattern that they have before a call.
    pub fn patterned(room: usize) -> Self
        ensures room { result.room ≡ room }
        ensures lent { lent result ≡ map (λ i. word_of (pattern_at i)) (upto (length (lent result))) }
    {
        let mut list = LentList::zeros(room);
        list.pattern(room);
        list
    }

    // Gives the list a room, and its lent places the pattern that they have before a call: where the list lies, with no copy of it.
    pub fn pattern(&mut self, room: usize)
        ensures room { self.new.room ≡ room }
        ensures lent { lent self.new ≡ map (λ i. word_of (pattern_at i)) (upto (length (lent self.new))) }
    {
        self.room = room;
        let n = room.min(N);
        fill_first(&mut self.numbers, n);
    }

    // What is lent of it.
    pub fn lend(&self) -> &[u32]
        ensures { result.now ≡ lent self.now }
    {
        first(&self.numbers, self.room)
    }

    // What is lent of it, to be written. A caller learns nothing of the list afterwards.
    pub fn lend_mut(&mut self) -> &mut [u32]
        ensures { result.now ≡ lent self.old }
    {
        let n = self.room.min(N);
        &mut self.numbers[..n]
    }

    // Puts a number at a place, where the list has that place.
    pub fn put(&mut self, place: usize, n: u32)
        ensures { self.new ≡ put_in self.old place n }
    {
        put(&mut self.numbers, place, n);
    }
}

// ---- the ten lists

// The ten lists of a complex.
#[derive(Clone, Copy)]
pub struct Lists<const N: usize> {
    pub pents: LentList<N>,
    pub edges: LentList<N>,
    pub triangles: LentList<N>,
    pub tets: LentList<N>,
    pub tri_to_pents_items: LentList<N>,
    pub tri_to_pents_starts: LentList<N>,
    pub edge_to_tris_items: LentList<N>,
    pub edge_to_tris_starts: LentList<N>,
    pub edge_to_pents_items: LentList<N>,
    pub edge_to_pents_starts: LentList<N>,
}

impl<const N: usize> Lists<N> {
    // Lists of zeros, lent whole.
    pub fn zeros() -> Self
        ensures { result ≡ all_of (zeros_of N N) }
    {
        Lists {
            pents: LentList::zeros(N),
            edges: LentList::zeros(N),
            triangles: LentList::zeros(N),
            tets: LentList::zeros(N),
            tri_to_pents_items: LentList::zeros(N),
            tri_to_pents_starts: LentList::zeros(N),
            edge_to_tris_items: LentList::zeros(N),
            edge_to_tris_starts: LentList::zeros(N),
            edge_to_pents_items: LentList::zeros(N),
            edge_to_pents_starts: LentList::zeros(N),
        }
    }

    // The complex of these lists.
    pub fn lend(&self, counts: Counts) -> Complex<'_>
        ensures counts { result.counts ≡ counts }
        ensures lists { lists_of result ≡ lent_of self.now }
    {
        Complex {
            counts,
            pents: self.pents.lend(),
            edges: self.edges.lend(),
            triangles: self.triangles.lend(),
            tets: self.tets.lend(),
            tri_to_pents: AdjacencyList {
                items: self.tri_to_pents_items.lend(),
                starts: self.tri_to_pents_starts.lend(),
            },
            edge_to_tris: AdjacencyList {
                items: self.edge_to_tris_items.lend(),
                starts: self.edge_to_tris_starts.lend(),
            },
            edge_to_pents: AdjacencyList {
                items: self.edge_to_pents_items.lend(),
                starts: self.edge_to_pents_starts.lend(),
            },
        }
    }

    // These lists, to be written. A caller learns nothing of them afterwards.
    pub fn lend_mut(&mut self) -> ListsMut<'_>
        ensures { lists_in result ≡ lent_of self.old }
    {
        ListsMut {
            pents: self.pents.lend_mut(),
            edges: self.edges.lend_mut(),
            triangles: self.triangles.lend_mut(),
            tets: self.tets.lend_mut(),
            tri_to_pents_items: self.tri_to_pents_items.lend_mut(),
            tri_to_pents_starts: self.tri_to_pents_starts.lend_mut(),
            edge_to_tris_items: self.edge_to_tris_items.lend_mut(),
            edge_to_tris_starts: self.edge_to_tris_starts.lend_mut(),
            edge_to_pents_items: self.edge_to_pents_items.lend_mut(),
            edge_to_pents_starts: self.edge_to_pents_starts.lend_mut(),
        }
    }

    // The list of a name, to be written.
    #[tactic(auto, unfolding(crate::specs::Owned::list_of, crate::specs::Owned::with_list))]
    fn list_mut(&mut self, name: ListName) -> &mut LentList<N>
        ensures* writes_back { sem 𝓛 (LendsList N.row name self.entry result) }
        ensures value { result.now ≡ list_of name self.old }
    {
        match name {
            ListName::Pents => &mut self.pents,
            ListName::Edges => &mut self.edges,
            ListName::Triangles => &mut self.triangles,
            ListName::Tets => &mut self.tets,
            ListName::TriToPentsItems => &mut self.tri_to_pents_items,
            ListName::TriToPentsStarts => &mut self.tri_to_pents_starts,
            ListName::EdgeToTrisItems => &mut self.edge_to_tris_items,
            ListName::EdgeToTrisStarts => &mut self.edge_to_tris_starts,
            ListName::EdgeToPentsItems => &mut self.edge_to_pents_items,
            ListName::EdgeToPentsStarts => &mut self.edge_to_pents_starts,
        }
    }

    // Puts a number at a place of a list, where it has that place.
    pub fn put(&mut self, name: ListName, place: usize, n: u32)
        ensures { self.new ≡ with_list name (put_in (list_of name self.old) place n) self.old }
    {
        self.list_mut(name).put(place, n);
    }

    // Gives a list another room.
    pub fn set_room(&mut self, name: ListName, room: usize)
        ensures { self.new ≡ with_list name (with_room (list_of name self.old) room) self.old }
    {
        self.list_mut(name).room = room;
    }
}
