// The limits by name (specs/Limits): propositions, moves, entries of a table, clauses of a picture, the clauses that a row says of a full
// picture, places of a run.
ghost use Rattle.std.specs.Prelude.{◌≤◌};
ghost use Rattle.sheet.specs.inner.Widths.{most_propositions};

pub const PROPOSITIONS: usize = 32;

pub const MOST_MOVES: usize = 32;

pub const ENTRIES: usize = 128;

pub const CLAUSES: usize = 256;

pub const FULL_PICTURE: usize = 257;

pub const PLACES: usize = 65;

// How many propositions a sheet has.
#[derive(Clone, Copy)]
pub(crate) struct Propositions {
    pub(crate) count: usize,
    ghost few: { count ≤ most_propositions },
}
