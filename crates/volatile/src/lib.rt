#![tactic(auto)]
// The volatile record (document 01, "The record"): its methods hand the next record back.
ghost use Rattle.std.specs.Prelude.{◌≡◌, ◌<◌};
ghost use Rattle.boards.specs.Rows.{emptied};
ghost use Rattle.volatile.specs.Volatile.{fresh, off, engaged, commit_of, left_open};
ghost use Rattle.volatile.specs.Volatile.{depend, clear, acknowledge, start};

use boards::{Closure, sets};

// A commit: who started it, who takes part, who has acknowledged. Open while it has members, else all zero, which is
// the default.
#[derive(Clone, Copy, PartialEq, Eq, Default, Debug)]
pub struct Commit {
    pub starter: u8,
    pub members: u16,
    pub acknowledged: u16,
}

// The volatile record (document 01, "The record"): bit j of row i says that board i depends on board j.
#[derive(Clone, Copy, PartialEq, Eq, Default, Debug)]
pub struct Record {
    pub on: bool,
    pub rows: [u16; 16],
    pub commit: Commit,
}

impl Record {
    // All zero, the default.
    pub fn off() -> Record
        ensures { result ≡ off }
    {
        Record::default()
    }

    // On, else empty.
    pub fn fresh() -> Record
        ensures { result ≡ fresh }
    {
        Record {
            on: true,
            ..Record::default()
        }
    }

    // The members of the open commit, 0 if none is open.
    pub fn engaged(self) -> u16
        ensures { result ≡ engaged self }
    {
        self.commit.members
    }

    // The commit that board i acknowledges, if i is a member: one at most is open, so i does not matter.
    pub fn commit_of(self, i: u8) -> Commit
        ensures { result ≡ commit_of self i }
    {
        self.commit
    }

    // Board i depends on board j.
    pub fn depend(self, i: u8, j: u8) -> Record
        requires { (i < 16) × (j < 16) }
        ensures { result ≡ depend self i j }
    {
        let mut rows = self.rows;
        let at = i as usize;
        rows[at] = sets::with_board(rows[at], j);
        Record { rows, ..self }
    }

    // The commit that is left: none if the open one has a member in g, and so is dropped.
    fn left_open(self, g: u16) -> Commit
        ensures { result ≡ left_open self g }
    {
        if sets::meet(self.commit.members, g) {
            return Commit::default();
        }
        self.commit
    }

    // The rows become those that the group brings, its own emptied; an open commit with a member in it is dropped.
    pub fn clear(self, group: Closure) -> Record
        requires { group.rows ≡ emptied self.rows group.members }
        ensures { result ≡ clear self group.members }
    {
        let rows = group.rows;
        let commit = self.left_open(group.members);
        Record {
            rows,
            commit,
            ..self
        }
    }

    // A commit of the members g by board i, who acknowledges.
    pub fn start(self, i: u8, g: u16) -> Record
        requires { i < 16 }
        ensures { result ≡ start self i g }
    {
        let commit = Commit {
            starter: i,
            members: g,
            acknowledged: sets::with_board(0, i),
        };
        Record { commit, ..self }
    }

    // Board i acknowledges the open commit.
    pub fn acknowledge(self, i: u8) -> Record
        requires { i < 16 }
        ensures { result ≡ acknowledge self i }
    {
        let old = self.commit;
        let commit = Commit {
            acknowledged: sets::with_board(old.acknowledged, i),
            ..old
        };
        Record { commit, ..self }
    }
}
