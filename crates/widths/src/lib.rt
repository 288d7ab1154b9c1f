// The sizes of the planner's levels, tables and buffers, each named once.

#![tactic(auto)]

// The facts of a level, those of one crew or of the query's person: 8 attributes of 16 values, and 32 crews.
pub const LEVEL_SIZE: usize = 160;

// The values among the facts of a level: the memberships stand behind them.
pub const VALUES_SIZE: usize = 128;

// Behind a subject's direct facts and its effective ones: where the flags of "v or any higher value" begin.
pub const HIGHER_AT: usize = 320;

// What a subject shows to a rule's terms: its direct facts, its effective ones, and for each value whether it or a higher one is effective.
pub const FLAGS_SIZE: usize = 448;

// A row of flags for each of 32 crews.
pub const ROWS_SIZE: usize = 5120;

// The crews' rows, and a last one for what the subject inherits anyhow.
pub const TABLE_SIZE: usize = 5280;

// The facts of 33 levels: of 32 crews and of the person.
pub const DEPOT_SIZE: usize = 5280;

// The bytes of a request for each fact of the depot.
pub const DRAFT_SIZE: usize = 26400;

// The numbers that write a move.
pub const MOVE_SIZE: usize = 14;

// The numbers of 512 moves.
pub const MOVES_SIZE: usize = 7168;

// The terms of a rule for each fact of a level.
pub const TERMS_SIZE: usize = 1280;

// In a table of such terms: from this number on a term asks nothing.
pub const IDLE_AT: usize = 320;
