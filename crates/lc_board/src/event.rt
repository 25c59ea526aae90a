//! The events of a board: what worker threads do with the directories on the board.

/// One event of a board: what a worker did with a directory. Most events carry the directory's job, which a visit needs, or its row, which
/// has what was found.
#[derive(PartialEq, Eq, Debug, Drop)]
pub enum Event<J, R> {
    /// The worker added a child directory with this number and this job to the board. It had claimed the parent directory, which has the
    /// number `parent`.
    Post {
        worker: u32,
        parent: u32,
        number: u32,
        job: J,
    },
    /// The worker claimed the directory with this number and got its job.
    Claim {
        worker: u32,
        number: u32,
        job: J,
    },
    /// The worker finished the directory with this number by adding this row.
    Return {
        worker: u32,
        number: u32,
        row: R,
    },
    /// The worker finished the directory with this number by adding this row, which reports an error.
    Fault {
        worker: u32,
        number: u32,
        row: R,
    },
    /// The worker found that all directories on the board are finished.
    Over {
        worker: u32,
    },
}

/// An event of a board, without its job or row.
pub type BareEvent = Event<(), ()>;
