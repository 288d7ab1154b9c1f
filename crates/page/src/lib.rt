// The page: a table with a bit for each person and value, set where a plan reaches it. What the crews can come to is worked out once; then all
// persons have their levels above them, at once. No request of any plan is given.

#![tactic(auto)]

ghost use Rattle.std.specs.Prelude.{◌≡◌, true, length};
ghost use Rattle.frames.specs.Book.{contents_of};
ghost use Rattle.frames.specs.Limits.{all_plain};
ghost use Rattle.frames.specs.Inner.Fits.{Admitted};
ghost use Rattle.level.specs.Inner.Moves.{moves_in};
ghost use Rattle.reach.specs.Inner.Leveled.{Leveled};
ghost use Rattle.search.specs.Inner.Scan.{SideMoves, BlankTable};
ghost use Rattle.page.specs.Page.{refusal_number, said, page_size, PageAnswered, PagePromise};
ghost use Rattle.page.specs.Inner.Rows.{asked_nothing, Roams, CrewsSettled, PersonMoves, RowsRight};

use frames::{Book, NO_QUERY, Query};
use level::Sides;
use search::Parts;
use widths::{DRAFT_SIZE, FLAGS_SIZE, MOVES_SIZE, ROWS_SIZE, TABLE_SIZE};

// The bytes of a page: sixteen for each of 64 persons.
pub const PAGE_SIZE: usize = 1024;

// The book's refusals, and 10, where the table has another length.
pub use frames::LentRefusal as Refusal;

// The table's number of a refusal.
pub fn refusal_number(r: Refusal) -> u8
    ensures { result ≡ refusal_number r }
{
    frames::lent_number(10, r)
}

// A query for person 0 that asks for nothing.
// Kept: the mode as a parameter, as `asked_nothing` of specs/Inner/Rows has it.
fn asked_nothing(mode: u8, roles: u32) -> Query
    ensures { result ≡ asked_nothing mode roles 0 }
{
    Query {
        mode,
        roles,
        ..NO_QUERY
    }
}

// What the crews come to, once for all persons, as the table of a person's level.
// Kept: `Leveled` and `Roams` of a book as clauses, here and below: they hold once `page_in` has put its own query in, so they are no invariant of
// `Book`, and a struct that lends a book with them would be opened for every part of it. `BlankTable` too, as `search::settle_crews` asks for it.
fn crews_table(b: &Book, sides: Sides, table: &mut [bool])
    requires leveled { Leveled (contents_of b.now) × Roams (contents_of b.now) }
    requires side_moves { SideMoves b.now.rules b.now.query.roles 3 3 4 4 (moves_in sides.adds.now) (moves_in sides.dels.now) × BlankTable table.old }
    ensures { CrewsSettled (contents_of b.now) table.new }
{
    let mut rows = [false; ROWS_SIZE];
    let mut up = [0u8; DRAFT_SIZE];
    let mut down = [0u8; DRAFT_SIZE];
    let parts = Parts::new(b, sides);
    search::settle_crews(&parts, &mut rows, table, &mut up, &mut down);
    flags::person_table(&rows, table);
}

// The crews once, then the persons, with the moves of both.
fn fill_by(b: &Book, crews: Sides, adds: &[u16], out: &mut [u8])
    requires leveled { Leveled (contents_of b.now) × Roams (contents_of b.now) }
    requires side_moves { SideMoves b.now.rules b.now.query.roles 3 3 4 4 (moves_in crews.adds.now) (moves_in crews.dels.now) ×
        PersonMoves b.now.rules b.now.query.roles (moves_in adds.now) }
    requires out_len { length out.old ≡ page_size }
    ensures { RowsRight (contents_of b.now) b.now.sizes.persons out.new }
{
    let mut table = [false; TABLE_SIZE];
    crews_table(b, crews, &mut table);
    rows::clear(out);
    let mut held = [0u64; FLAGS_SIZE];
    persons::settle(
        b.sizes.persons,
        b.sizes.crews,
        &b.facts,
        adds,
        &table,
        &mut held,
    );
    rows::put_rows(b.sizes, &held, out);
}

// The moves out of the accepted rules, then the crews and the persons.
fn fill(b: &Book, out: &mut [u8])
    requires leveled { Leveled (contents_of b.now) × Roams (contents_of b.now) }
    requires out_len { length out.old ≡ page_size }
    ensures { RowsRight (contents_of b.now) b.now.sizes.persons out.new }
{
    let mut buffer = [0u16; MOVES_SIZE];
    let sides = moves::moves_listed(&b.rules, b.query.roles, &mut buffer);
    let crews = Sides {
        adds: sides.gains_in(&buffer),
        dels: sides.losses_in(&buffer),
    };
    fill_by(b, crews, sides.adds_in(&buffer), out)
}

// The page of an accepted book without "not" terms. Of its query the roles alone are used.
#[tactic(auto, using(crate::proofs::RowLaws::answered_other))]
fn page_in(b: &mut Book, out: &mut [u8]) -> Result<(), Refusal>
    requires { Admitted (contents_of b.old) × (all_plain (contents_of b.old).rules ≡ true) }
    ensures { PageAnswered (contents_of b.old) out.old (said result) out.new }
{
    if out.len() != PAGE_SIZE {
        return Err(Refusal::BadLength);
    }
    b.query = asked_nothing(1, b.query.roles);
    fill(b, out);
    Ok(())
}

// Fills the table with the page of a book, given as characters.
pub fn page(book: &[u8], out: &mut [u8]) -> Result<(), Refusal>
    ensures { PagePromise book.now out.old result out.new }
{
    let mut b = frames::no_book();
    frames::read_into(book, true, &mut b)?;
    page_in(&mut b, out)
}
