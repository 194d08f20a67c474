//! Where in a line the next byte stands.

use crate::line::{EndList, Mark, Numbers, Pairs};

/// Which lines may come.
#[derive(Clone, Copy)]
pub enum Standing {
    /// the head line
    First,
    /// any line but a head line
    Inside,
    /// none
    Over,
}

/// The word that begins a line.
#[derive(Clone, Copy)]
pub enum Word {
    Head,
    Level,
    Root,
    State,
    Edge,
    Job,
    Verdict,
    End,
}

/// Which number of a line comes, with the numbers before it.
#[derive(Clone, Copy)]
pub enum NumberAt {
    HeadJobs,
    HeadCores {
        jobs: u64,
    },
    LevelNumber,
    LevelCount {
        number: u64,
    },
    RootLo,
    RootHi {
        lo: u64,
    },
    StateParent,
    StateJob {
        parent: u64,
    },
    PairLo {
        parent: u64,
        job: u64,
    },
    PairHi {
        parent: u64,
        job: u64,
        lo: u64,
    },
    EndJob {
        parent: u64,
        job: u64,
    },
    EndLo {
        parent: u64,
        job: u64,
        of: u64,
    },
    EndHi {
        parent: u64,
        job: u64,
        of: u64,
        lo: u64,
    },
    LastJob {
        parent: u64,
        job: u64,
    },
    EdgeFrom,
    EdgeJob {
        from: u64,
    },
    EdgeEst {
        from: u64,
        job: u64,
    },
    EdgeLst {
        from: u64,
        job: u64,
        est: u64,
    },
    EdgeTo {
        from: u64,
        job: u64,
        est: u64,
        lst: u64,
    },
    JobNumber,
    JobLo {
        number: u64,
    },
    JobHi {
        number: u64,
        lo: u64,
    },
}

/// Which mark comes, with the numbers before it.
#[derive(Clone, Copy)]
pub enum Marked {
    Job { number: u64, lo: u64, hi: u64 },
    Verdict,
}

/// Where in a line the next byte stands.
#[derive(Clone, Copy)]
pub enum Spot {
    /// before the first byte
    Start,
    /// behind the first byte of a line that is an edge or the end
    Forked,
    /// in a word, of which so many bytes have come
    InWord {
        word: Word,
        at: usize,
    },
    /// a number is due
    Due {
        place: NumberAt,
    },
    /// in a number, with the value of the digits so far
    Digits {
        place: NumberAt,
        value: u64,
    },
    /// behind the space after a pair of a state
    PairGap {
        parent: u64,
        job: u64,
    },
    /// behind the first bar of a state
    Barred {
        parent: u64,
        job: u64,
    },
    /// behind the space after the ends of a state
    EndGap {
        parent: u64,
        job: u64,
    },
    /// behind the second bar of a state
    Closed {
        parent: u64,
        job: u64,
    },
    /// a mark is due
    MarkDue {
        marked: Marked,
    },
    /// in a mark with its LF, of which so many bytes have come
    InMark {
        marked: Marked,
        mark: Mark,
        at: usize,
    },
}

/// The items of a line so far.
#[derive(Drop)]
pub struct Draft {
    pub pairs: Pairs,
    pub ends: EndList,
    pub last: Numbers,
}
