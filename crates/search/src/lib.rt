// The search over the levels: what each crew in rising number, and then the query's person, can come to, and the requests of the best plan.
// What the crews come to is the same for every person, and is promised for all of them at once.

#![tactic(auto)]

ghost use Rattle.std.specs.Prelude.{◌≡◌, true, false, ◌+◌, ◌*◌, ◌<◌, length};
ghost use Rattle.facts.specs.Facts.{ledger_size};
ghost use Rattle.frames.specs.Book.{contents_of};
ghost use Rattle.reach.specs.Inner.Leveled.{Leveled};
ghost use Rattle.flags.specs.Inner.Flags.{Reaching};
ghost use Rattle.level.specs.Inner.Moves.{moves_in};
ghost use Rattle.level.specs.Inner.Settle.{new_work, SameBuffers, SameDraft, found_of, ups_of, at_of};
ghost use Rattle.search.specs.Inner.Drive.{Driving};
ghost use Rattle.search.specs.Inner.Scan.{SideMoves, BlankTable, Searched};
ghost use Rattle.search.specs.Inner.Given.{Names, CrewParts, CrewsGiven, ServesOf, ScannedOf, PersonGiven, LevelGiven, LevelSettled};
ghost use Rattle.widths.specs.Inner.Widths.{level_size, rows_size, depot_size, draft_size};

use frames::{Book, Query};
use level::{Draft, Ends, Fired, Level, Sides, Work};
use widths::{DEPOT_SIZE, FLAGS_SIZE, LEVEL_SIZE, MOVES_SIZE, ROWS_SIZE, TABLE_SIZE};

// What the levels need of an accepted book: its query, how many crews it has, its facts and juniors, and the moves of the levels' two sides.
#[derive(Clone, Copy)]
pub struct Parts<'a> {
    pub query: &'a Query,
    pub crews: u8,
    pub facts: &'a [u8],
    pub juniors: &'a [u32],
    pub sides: Sides<'a>,
}

impl<'a> Parts<'a> {
    // The parts of a book, with the moves of two sides.
    pub fn new(b: &'a Book, sides: Sides<'a>) -> Parts<'a>
        requires { (length b.now.facts ≡ ledger_size) × (length b.now.juniors ≡ 32) }
        ensures query { result.query.now ≡ b.now.query }
        ensures crews { result.crews ≡ b.now.sizes.crews }
        ensures facts { result.facts.now ≡ b.now.facts }
        ensures juniors { result.juniors.now ≡ b.now.juniors }
        ensures sides { result.sides ≡ sides.entry }
    {
        Parts {
            query: &b.query,
            crews: b.sizes.crews,
            facts: &b.facts,
            juniors: &b.juniors,
            sides,
        }
    }
}

// Whose level it is: the level's number, the number by which requests name the subject, and whether it is a crew that is listed or lies below one.
#[derive(Clone, Copy)]
struct Subject {
    k: u8,
    number: u8,
    below: bool,
}

// What a level comes to, once its table stands: its forbidden and its starting facts, their flags, leave to add every fact, and the rounds.
fn settle_level(
    parts: &Parts,
    subject: Subject,
    fired: &mut Fired,
    table: &[bool],
    work: &mut Work,
    draft: &mut Draft,
) -> Option<Ends>
    requires level_given { LevelGiven parts.now.query.now parts.now.sides.adds.now parts.now.sides.dels.now
        fired.old.added fired.old.deleted table.now work.old.x
        draft.old.ends.ups draft.old.up.now draft.old.ends.at draft.old.down.now }
    requires begun { work.old ≡ new_work }
    ensures settled { LevelSettled parts.now.query.now parts.now.crews parts.now.facts.now subject.k subject.below
        (moves_in parts.now.sides.adds.now) (moves_in parts.now.sides.dels.now) subject.number
        table.now work.new.x draft.old.ends.ups draft.old.up.now draft.new.up.now
        draft.old.ends.at draft.old.down.now draft.new.down.now (found_of result) (ups_of result)
        (at_of result) }
    ensures names { Names fired.new.added fired.new.deleted }
    ensures lent { SameDraft draft.old draft.new }
{
    let Subject { k, number, below } = subject;
    let mut bad = [false; LEVEL_SIZE];
    let mut first = [false; LEVEL_SIZE];
    let mut s = [false; FLAGS_SIZE];
    flags::bad_flags(parts.query, parts.crews, k, below, &mut bad);
    flags::start_flags(parts.facts, parts.crews, parts.query.person, k, &mut first);
    build::build(table, &first, &mut s);
    let level = Level {
        sides: parts.sides,
        subject: number,
        table,
        bad: &bad,
        s: &s,
    };
    level::settle(&level, fired, work, draft)
}

// The level of crew k.
fn crew_level(
    parts: &Parts,
    k: u8,
    fired: &mut Fired,
    reach: &[bool],
    rows: &mut [bool],
    table: &mut [bool],
    draft: &mut Draft,
) -> Option<Ends>
    requires crews_given { CrewsGiven parts.now.query.now parts.now.crews parts.now.facts.now parts.now.juniors.now
        parts.now.sides.adds.now parts.now.sides.dels.now reach.now × (k < parts.now.crews) }
    requires names { Names fired.old.added fired.old.deleted × BlankTable table.old }
    requires serves_of { ServesOf parts.now.query.now parts.now.crews parts.now.facts.now parts.now.juniors.now
        parts.now.sides.adds.now parts.now.sides.dels.now k rows.old
        draft.old.ends.ups draft.old.up.now draft.old.ends.at draft.old.down.now }
    ensures scanned { ScannedOf parts.now.query.now parts.now.crews parts.now.facts.now parts.now.juniors.now
        parts.now.sides.adds.now parts.now.sides.dels.now (k + 1)
        rows.new draft.new.up.now draft.new.down.now (found_of result) (draft.old.ends.ups + ups_of result) (at_of result) }
    ensures lent { SameDraft draft.old draft.new }
    ensures names { Names fired.new.added fired.new.deleted × BlankTable table.new }
{
    let subject = Subject {
        k,
        number: k,
        below: flags::do_listed_reach(parts.query.crews, reach, k),
    };
    let mut work = Work::new();
    flags::crew_table(parts.juniors, k, rows, table);
    let r = settle_level(parts, subject, fired, table, &mut work, draft);
    flags::fill_row(table, k, &work.x, rows);
    r
}

// Which crews each crew reaches downwards.
fn fill_reach(juniors: &[u32], reach: &mut [bool])
    requires { (length juniors.now ≡ 32) × (length reach.old ≡ rows_size) }
    ensures { (length reach.new ≡ rows_size) × Reaching juniors.now reach.new }
{
    let x = [false; FLAGS_SIZE];
    let mut table = [false; TABLE_SIZE];
    flags::first_rows(reach);
    for k in 0..32 {
        flags::crew_table(juniors, k, reach, &mut table);
        flags::fill_row(&table, k, &x, reach);
    }
}

// The levels of the crews, in rising number. Each crew tries first what the one before it did.
fn crew_levels(
    parts: &Parts,
    fired: &mut Fired,
    reach: &[bool],
    rows: &mut [bool],
    table: &mut [bool],
    draft: &mut Draft,
) -> Option<Ends>
    requires crews_given { CrewsGiven parts.now.query.now parts.now.crews parts.now.facts.now parts.now.juniors.now
        parts.now.sides.adds.now parts.now.sides.dels.now reach.now }
    requires names { Names fired.old.added fired.old.deleted × BlankTable table.old }
    requires serves_of { ServesOf parts.now.query.now parts.now.crews parts.now.facts.now parts.now.juniors.now
        parts.now.sides.adds.now parts.now.sides.dels.now 0 rows.old
        draft.old.ends.ups draft.old.up.now draft.old.ends.at draft.old.down.now }
    ensures scanned { ScannedOf parts.now.query.now parts.now.crews parts.now.facts.now parts.now.juniors.now
        parts.now.sides.adds.now parts.now.sides.dels.now parts.now.crews
        rows.new draft.new.up.now draft.new.down.now (found_of result) (ups_of result) (at_of result) }
    ensures lent { SameBuffers draft.old draft.new }
{
    for k in 0..parts.crews {
        let r = crew_level(parts, k, fired, reach, rows, table, draft)?;
        draft.ends = Ends {
            ups: draft.ends.ups + r.ups,
            at: r.at,
        };
    }
    Some(draft.ends)
}

// The levels of all crews, from nothing: which crews each crew reaches, rows that have the crews alone, then crew after crew. The same for whoever
// the query's person is.
// Kept: `BlankTable` and the lengths of both drafts as clauses, here and in `page`: docs/PROMISES.md names this function, which is lent slices.
pub fn settle_crews(
    parts: &Parts,
    rows: &mut [bool],
    table: &mut [bool],
    up: &mut [u8],
    down: &mut [u8],
) -> Option<Ends>
    requires crew_parts { CrewParts parts.now.query.now parts.now.crews parts.now.facts.now parts.now.juniors.now
        parts.now.sides.adds.now parts.now.sides.dels.now }
    requires rows_len { (length rows.old ≡ rows_size) × BlankTable table.old }
    requires up_len { (length up.old ≡ draft_size) × (length down.old ≡ draft_size) }
    ensures { ScannedOf parts.now.query.now parts.now.crews parts.now.facts.now parts.now.juniors.now
        parts.now.sides.adds.now parts.now.sides.dels.now parts.now.crews
        rows.new up.new down.new (found_of result) (ups_of result) (at_of result) }
{
    let mut reach = [false; ROWS_SIZE];
    let mut fired = Fired::new();
    fill_reach(parts.juniors, &mut reach);
    flags::first_rows(rows);
    let ends = Ends {
        ups: 0,
        at: DEPOT_SIZE,
    };
    let mut draft = Draft { ends, up, down };
    crew_levels(parts, &mut fired, &reach, rows, table, &mut draft)
}

// The level of the query's person, above all crews.
fn person_level(
    b: &Book,
    sides: Sides,
    rows: &[bool],
    table: &mut [bool],
    draft: &mut Draft,
) -> Option<Ends>
    requires person_given { PersonGiven b.now b.now.facts sides.adds.now sides.dels.now table.old }
    requires driving { Driving (contents_of b.now) b.now.sizes.crews rows.now
        draft.old.ends.ups draft.old.up.now draft.old.ends.at draft.old.down.now }
    ensures searched { Searched (contents_of b.now) draft.new.up.now draft.new.down.now
        (found_of result) (draft.old.ends.ups + ups_of result) (at_of result) }
    ensures lent { SameBuffers draft.old draft.new }
{
    let parts = Parts::new(b, sides);
    let subject = Subject {
        k: b.sizes.crews,
        number: b.query.person.0,
        below: false,
    };
    let mut fired = Fired::new();
    let mut work = Work::new();
    flags::person_table(rows, table);
    settle_level(&parts, subject, &mut fired, table, &mut work, draft)
}

// All levels, with the moves of the crews and of the person: the requests of the best plan, or that no chain of requests ends clear of the
// forbidden facts.
// Kept: `Leveled` of a book and `SideMoves` of its moves as clauses, here and in `page` and `planner`: a struct that lends a book with them would be made
// at the top of each, and opened again for every part of the book.
fn all_levels(b: &Book, crews: Sides, person: Sides, up: &mut [u8], down: &mut [u8]) -> Option<Ends>
    requires leveled { Leveled (contents_of b.now) ×
        (SideMoves b.now.rules b.now.query.roles 3 3 4 4 (moves_in crews.adds.now) (moves_in crews.dels.now) ×
        SideMoves b.now.rules b.now.query.roles 1 5 2 6 (moves_in person.adds.now) (moves_in person.dels.now)) }
    requires up_len { (length up.old ≡ draft_size) × (length down.old ≡ draft_size) }
    ensures { Searched (contents_of b.now) up.new down.new (found_of result) (ups_of result) (at_of result) }
{
    let mut rows = [false; ROWS_SIZE];
    let mut table = [false; TABLE_SIZE];
    let parts = Parts::new(b, crews);
    let r = settle_crews(&parts, &mut rows, &mut table, up, down)?;
    let mut draft = Draft { ends: r, up, down };
    let p = person_level(b, person, &rows, &mut table, &mut draft)?;
    Some(Ends {
        ups: r.ups + p.ups,
        at: p.at,
    })
}

// The moves out of the accepted rules, then all levels.
pub fn search(b: &Book, up: &mut [u8], down: &mut [u8]) -> Option<Ends>
    requires leveled { Leveled (contents_of b.now) }
    requires up_len { (length up.old ≡ draft_size) × (length down.old ≡ draft_size) }
    ensures { Searched (contents_of b.now) up.new down.new (found_of result) (ups_of result) (at_of result) }
{
    let mut buffer = [0u16; MOVES_SIZE];
    let n = moves::moves_listed(&b.rules, b.query.roles, &mut buffer);
    // Kept: `Sides` of the crews' moves here and in `page`: each field by the method of its side; a method for the pair is no plainer.
    let crews = Sides {
        adds: n.gains_in(&buffer),
        dels: n.losses_in(&buffer),
    };
    let person = Sides {
        adds: n.adds_in(&buffer),
        dels: n.dels_in(&buffer),
    };
    all_levels(b, crews, person, up, down)
}
