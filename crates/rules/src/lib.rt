// The words of the product: what a row, a table and each answer about them hold. An order is sixty-four row numbers (rule 5.6). What they mean stands
// in specs/, and for texts and searches in the crates of these names; this file has no function. Row 1 is the first (rule 1.3). Rules are those of
// docs/RULES.md.
#![tactic(auto)]

// A job: release and deadline in slots, work in work units, level 0 (LO) or 1 (HI), the part of the work that a LO job is promised, in work
// units, and the row that the job follows, 0 if it follows none (rules 1.1, 1.2, 1.11, 1.12). Level and row are numbers, as C lends them, and any number is
// handed in: checks 5 and 13 look at them.
#[repr(C)]
#[derive(Clone, Copy)]
pub struct Row {
    pub release: u32,
    pub work: u32,
    pub deadline: u32,
    pub level: u32,
    pub promised: u32,
    pub follows: u32,
}

// A table of n jobs, one column for each figure; row i is at index i - 1, and no figure stands after row n (rules 1.1, 5.4). Columns of sixty-four with n
// beside them, and no list of rows: no memory is asked for, and C is handed the columns.
// normal and degraded are speeds in work units per slot (rule 1.7); loading is K, the slots that load a job (rule 1.10).
#[derive(Clone, Copy)]
pub struct Table {
    pub n: u32,
    pub normal: u32,
    pub degraded: u32,
    pub loading: u32,
    pub release: [u32; 64],
    pub work: [u32; 64],
    pub deadline: [u32; 64],
    pub level: [u32; 64],
    pub promised: [u32; 64],
    pub follows: [u32; 64],
}

// Why a call was refused (rules 10.1 to 10.6, 10.8 to 10.20). The number of each is given by specs/Numbers.
#[derive(Clone, Copy)]
pub enum Refusal {
    Length = 1,
    Malformed = 2,
    RowCount = 3,
    Speeds = 4,
    RowLimits = 5,
    NotAnOrder = 6,
    ClockOver = 8,
    Unsound = 9,
    NoRoom = 10,
    Loading = 11,
    Promised = 12,
    NotLower = 13,
    ReleasedLater = 14,
    FollowsLow = 15,
    NotCorrect = 16,
    RowOpen = 17,
    ReleasedBefore = 18,
    TrialsOver = 19,
    TooManyRows = 20,
}

// A check passed, or what it was refused for (rule 11.1).
pub type Check = Result<(), Refusal>;

// The reader's answer, and the table that was read (all zero on a refusal) (rule 6.8). No `Result`, since the table of a refusal is promised.
#[derive(Clone, Copy)]
pub struct Reading {
    pub check: Check,
    pub table: Table,
}

// The answer of a call that writes text into lent bytes, the writer, the report or the composer, and the text's length in bytes (0 on a refusal)
// (rules 15.2, 15.5, 16.5, 16.8, 24.9). No `Result`, since the length 0 of a refusal is promised.
#[derive(Clone, Copy)]
pub struct Writing {
    pub check: Check,
    pub size: u32,
}

// What planning an accepted table comes to: an order was made, or none exists and these rows are left (as a word, rule 4.8). As an `Option` of the word an
// order made would be told as none.
#[derive(Clone, Copy)]
pub enum Plan {
    Ordered,
    NoOrder(u64),
}

// The planner's answer (rule 4.10).
pub type Planned = Result<Plan, Refusal>;

// The planner's answer with the order made, all zero unless it was (rules 10.0, 10.7). No one `Result`, since the zeros are promised.
#[derive(Clone, Copy)]
pub struct Planning {
    pub answer: Planned,
    pub order: [u8; 64],
}

// Which speed a search is for; the other one is kept as the table states it (rule 18.1).
#[derive(Clone, Copy)]
pub enum Sought {
    Degraded,
    Normal,
}

// A search's answer: the least workable speed in work units per slot, none where no speed of the range works, or a refusal (rules 18.4 to 18.6).
pub type Searched = Result<Option<u32>, Refusal>;

// A search's answer with the planner's order at the speed found, all zero unless one was (rules 18.4 to 18.6). Beside `Planning` and not one generic
// struct with it: theorems name each, and each is the answer of a section of its own.
#[derive(Clone, Copy)]
pub struct Searching {
    pub answer: Searched,
    pub order: [u8; 64],
}

// A verdict: yes or no, each with the tightest row and its slack in slots (rules 7.2, 7.3). A no is an answer and no error.
#[derive(Clone, Copy)]
pub enum Verdict {
    Correct { row: u8, slack: i32 },
    Incorrect { row: u8, slack: i32 },
}

// The judge's answer (rule 7.4).
pub type Judgement = Result<Verdict, Refusal>;
