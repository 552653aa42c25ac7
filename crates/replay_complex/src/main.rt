// Replays stored calls of `from_pentachorons` and `check_built`. A line has, each as 16 hexadecimal digits, how many
// vertices its pentachorons have, the vertex count of the complex, the lengths of the ten lent lists, how many changes
// there are, those vertices and those changes. For a line it prints the counts or the refusal, and the lent lists after
// the call. What was built is then checked, and checked again after each change, which stays: it prints 0 or the
// refusal's number, and pent_edges and pent_tris after the check. Place i of a list that is lent to be written holds
// 50000 + i before. oracle/complex made stdin and stdout from the Rust's answers and the table of refusals.
#![tactic(auto)]

ghost use Rattle.std.specs.Prelude.{◌+◌, ◌<◌, ◌≤◌, length, IfOk};

use complex::Counts;
use refusals::{Refusal, number_in};
use replay::{Line, print_lines_of, print_row};
use replay_lists::{Change, CountName, LentList, ListName, Lists, Target, with_count};
use std::io::Result;

// ---- reading

// A line, and what it says before its vertices.
#[derive(Clone, Copy)]
struct Settings<'a> {
    line: Line<'a>,
    vertices: usize,
    // How many vertices of pentachorons and changes follow.
    given: usize,
    changes: usize,
    ghost followed: { (given ≤ 100) × (changes ≤ 300) },
}

impl<'a> From<Line<'a>> for Settings<'a> {
    fn from(line: Line<'a>) -> Settings<'a> {
        Settings {
            line,
            vertices: line.size(1),
            given: line.size(0).min(100),
            changes: line.size(12).min(300),
        }
    }
}

impl Settings<'_> {
    // How many numbers the line has.
    fn line_numbers(&self) -> usize
        ensures { (0 < result) × (result < 1000) }
    {
        13 + self.given + self.changes
    }

    // The i-th change.
    fn change(&self, i: usize) -> Change
        requires { i < 300 }
    {
        Change::from(self.line.number(13 + self.given + i))
    }

    // The ten lists before the call, of the lengths that the line says.
    fn lists(&self) -> Lists<1000> {
        let line = self.line;
        let mut lists = Lists::zeros();
        lists.pents.pattern(line.size(2));
        lists.edges.pattern(line.size(3));
        lists.triangles.pattern(line.size(4));
        lists.tets.pattern(line.size(5));
        lists.tri_to_pents_items.pattern(line.size(6));
        lists.tri_to_pents_starts.pattern(line.size(7));
        lists.edge_to_tris_items.pattern(line.size(8));
        lists.edge_to_tris_starts.pattern(line.size(9));
        lists.edge_to_pents_items.pattern(line.size(10));
        lists.edge_to_pents_starts.pattern(line.size(11));
        lists
    }
}

// ---- printing

// A line with the counts or the refusal.
fn print_built(rt: &impl Print, built: std::result::Result<Counts, Refusal>) -> Result<()> {
    match built {
        Ok(counts) => println!(rt;
            "vertices {} pentachorons {} edges {} triangles {} tets {}",
            counts.vertices, counts.pentachorons, counts.edges, counts.triangles, counts.tets
        ),
        Err(refusal) => println!(rt; "{refusal}"),
    }
}

// A line with a list's name and what is lent of it.
fn print_list(rt: &impl Print, name: &str, list: &LentList<1000>) -> Result<()> {
    print!(rt; "{name}")?;
    print_row(rt, list.lend().iter())
}

// The ten lists, a line for each.
fn print_lists(rt: &impl Print, lists: &Lists<1000>) -> Result<()> {
    print_list(rt, "pents", &lists.pents)?;
    print_list(rt, "edges", &lists.edges)?;
    print_list(rt, "triangles", &lists.triangles)?;
    print_list(rt, "tets", &lists.tets)?;
    print_list(rt, "tri_to_pents_items", &lists.tri_to_pents_items)?;
    print_list(rt, "tri_to_pents_starts", &lists.tri_to_pents_starts)?;
    print_list(rt, "edge_to_tris_items", &lists.edge_to_tris_items)?;
    print_list(rt, "edge_to_tris_starts", &lists.edge_to_tris_starts)?;
    print_list(rt, "edge_to_pents_items", &lists.edge_to_pents_items)?;
    print_list(rt, "edge_to_pents_starts", &lists.edge_to_pents_starts)
}

// ---- checks

// What is set before a check.
#[derive(Clone, Copy)]
enum Setting {
    Count(CountName),
    Room(ListName),
    PentEdges,
    PentTris,
    Nothing,
}

// The five counts, the rooms of the ten lists, and the rooms of the outputs.
impl From<usize> for Setting {
    fn from(number: usize) -> Setting {
        match number {
            0..=4 => CountName::try_from(number).map_or(Setting::Nothing, Setting::Count),
            15 => Setting::PentEdges,
            16 => Setting::PentTris,
            _ => ListName::try_from(number as u64 - 5).map_or(Setting::Nothing, Setting::Room),
        }
    }
}

// What a check is given: a complex, and the rooms of its two outputs.
#[derive(Clone, Copy)]
struct Given {
    counts: Counts,
    lists: Lists<1000>,
    pent_edges: usize,
    pent_tris: usize,
}

impl Given {
    // Sets a count or a room.
    fn set(&mut self, setting: Setting, n: usize) {
        match setting {
            Setting::Count(name) => self.counts = with_count(self.counts, name, n),
            Setting::Room(name) => self.lists.set_room(name, n),
            Setting::PentEdges => self.pent_edges = n,
            Setting::PentTris => self.pent_tris = n,
            Setting::Nothing => {}
        }
    }

    // Puts a change's number at a place of a list; for `Further` a setting is what the number lacks to the largest.
    fn make(&mut self, change: Change) {
        let n = change.n as usize;
        match change.target {
            Target::Counts => self.set(Setting::from(change.place), n),
            Target::Further => self.set(Setting::from(change.place), usize::MAX - n),
            _ => change.make(&mut self.lists),
        }
    }
}

// The answer to a check, and its two outputs after it.
fn print_check(rt: &impl Print, given: &Given) -> Result<()> {
    let mut pent_edges = LentList::<1000>::patterned(given.pent_edges);
    let mut pent_tris = LentList::<1000>::patterned(given.pent_tris);
    let outcome = comparison::check_built(
        &given.lists.lend(given.counts),
        pent_edges.lend_mut(),
        pent_tris.lend_mut(),
    );
    println!(rt; "checked {}", number_in(&outcome))?;
    print_list(rt, "pent_edges", &pent_edges)?;
    print_list(rt, "pent_tris", &pent_tris)
}

// A check of what a line built, and another after each of its changes.
fn print_checks(
    rt: &impl Print,
    settings: &Settings<'_>,
    counts: Counts,
    lists: &Lists<1000>,
) -> Result<()> {
    let mut given = Given {
        counts,
        lists: *lists,
        pent_edges: 2 * settings.given,
        pent_tris: 2 * settings.given,
    };
    print_check(rt, &given)?;
    for i in 0..settings.changes {
        given.make(settings.change(i));
        print_check(rt, &given)?;
    }
    Ok(())
}

// The answers to a line.
fn print_answers(rt: &impl Print, settings: &Settings<'_>) -> Result<()> {
    let mut given = [0; 100];
    let given = &mut given[..settings.given];
    settings.line.read(13, given);
    let mut lists = settings.lists();
    let built = builder::from_pentachorons(settings.vertices, given, &mut lists.lend_mut());
    print_built(rt, built)?;
    print_lists(rt, &lists)?;
    match built {
        Ok(counts) => print_checks(rt, settings, counts, &lists),
        Err(_) => Ok(()),
    }
}

// ---- the text

// The answers to the line that starts at `at`, and where the next line starts.
fn print_line(rt: &impl Print, text: &[u8], at: usize) -> Result<usize>
    requires { at < length text.now }
    ensures { IfOk result (λ next. at < next) }
{
    let settings = Settings::from(Line(&text[at..]));
    print_answers(rt, &settings)?;
    Ok(at + 17 * settings.line_numbers())
}

fn main(rt: HostRuntime) -> Result<()> {
    print_lines_of(rt.stdin(), |text, at| print_line(&rt, text, at))
}
