// The moves of the sides of the levels, out of the accepted rules as a lent slice.

#![tactic(auto)]

ghost use Rattle.std.specs.Prelude.{◌≡◌, true, ◌<◌, length, ◌*◌, take};
ghost use Rattle.level.specs.Inner.Terms.{GoodRule};
ghost use Rattle.level.specs.Inner.Chosen.{chosen_in, GoodRules};
ghost use Rattle.moves.specs.Inner.Listed.{of_list, RoomFrom, Taken, Gathered, part_of, Sided, Prepared};
ghost use Rattle.widths.specs.Inner.Widths.{moves_size, move_size};

use frames::{Rule, Rules};
use widths::MOVE_SIZE;

// The move of a rule, where it is chosen, is written as move `k`. Returns how many moves there are then.
// Kept: two ops and the roles one by one, here and below, no closure: `Taken` and `Gathered` of specs/Inner/Listed take them as `chosen_in` does.
fn gather(r: &Rule, one: u8, two: u8, roles: u32, k: usize, ms: &mut [u16]) -> usize
    requires { GoodRule r.now × ((chosen_in one two roles r.now ≡ true → k < 512) × (length ms.old ≡ moves_size)) }
    ensures { Taken one two roles r.now k ms.old result ms.new }
{
    if level::chosen(r, one, two, roles) {
        level::put_move(level::move_of(r), k, ms);
        k + 1
    } else {
        k
    }
}

// Writes the moves of the rules that have one of two ops and one of the roles, in the rules' order, from move `from` on. Returns how
// many moves there are then.
fn moves_of(rules: &[Rule], one: u8, two: u8, roles: u32, from: usize, ms: &mut [u16]) -> usize
    requires { GoodRules (of_list rules.now) × (RoomFrom (of_list rules.now) one two roles from × (length ms.old ≡ moves_size)) }
    ensures { Gathered (of_list rules.now) one two roles from ms.old (length rules.now) result ms.new }
{
    let mut k = from;
    for r in rules {
        k = gather(r, one, two, roles, k, ms);
    }
    k
}

// How many moves there are at the end of each side, one side behind the other: additions and deletions, of the crews (`gains`,
// `losses`) and of the query's person (`adds`, `dels`).
#[derive(Clone, Copy)]
pub struct Counts {
    pub gains: usize,
    pub losses: usize,
    pub adds: usize,
    pub dels: usize,
}

// The moves of each side, out of the buffer that has them all.
// Kept: a method a side: which ends cut it is all that each says; and `Sided` as a clause, since it is of the counts and the buffer together.
impl Counts {
    pub fn gains_in(self, ms: &[u16]) -> &[u16]
        requires { Sided self ms.now }
        ensures { result.now ≡ take (move_size * self.gains) ms.now }
    {
        &ms[..MOVE_SIZE * self.gains]
    }

    pub fn losses_in(self, ms: &[u16]) -> &[u16]
        requires { Sided self ms.now }
        ensures { result.now ≡ part_of self.gains self.losses ms.now }
    {
        &ms[MOVE_SIZE * self.gains..MOVE_SIZE * self.losses]
    }

    pub fn adds_in(self, ms: &[u16]) -> &[u16]
        requires { Sided self ms.now }
        ensures { result.now ≡ part_of self.losses self.adds ms.now }
    {
        &ms[MOVE_SIZE * self.losses..MOVE_SIZE * self.adds]
    }

    pub fn dels_in(self, ms: &[u16]) -> &[u16]
        requires { Sided self ms.now }
        ensures { result.now ≡ part_of self.adds self.dels ms.now }
    {
        &ms[MOVE_SIZE * self.adds..MOVE_SIZE * self.dels]
    }
}

// The moves of all four sides, one behind the other: a rule has one op, so 512 rules give at most 512 moves in all. The
// list is lent once, to each side in turn.
pub fn moves_listed(rs: &Rules, roles: u32, ms: &mut [u16]) -> Counts
    requires { GoodRules rs.now × (length ms.old ≡ moves_size) }
    ensures sides { Prepared rs.now roles result ms.new }
    ensures room { length rs.now.rules ≡ 512 }
{
    // Kept: not `rs.listed()`: of an array of records behind a reference the length is known only where it is lent whole, and callers need `room`.
    let whole: &[Rule] = &rs.rules;
    let rules = &whole[..rs.count];
    // By their ops: 03; 04; 01 and 05; 02 and 06.
    let gains = moves_of(rules, 3, 3, roles, 0, ms);
    let losses = moves_of(rules, 4, 4, roles, gains, ms);
    let adds = moves_of(rules, 1, 5, roles, losses, ms);
    let dels = moves_of(rules, 2, 6, roles, adds, ms);
    Counts {
        gains,
        losses,
        adds,
        dels,
    }
}
