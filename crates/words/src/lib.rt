// Tables and run records as the words that a C caller lends, and back. specs/Words says which word is which.
#![tactic(auto)]

ghost use Rattle.std.specs.Prelude.{◌≡◌, ◌+◌, ◌≤◌, length};
ghost use Rattle.std.proofs.Math.Seq.{paste};
ghost use Rattle.words.specs.Words.{column_at, table_in, words_of, run_in, state_words};

use record::Run;
use rules::Table;

// Where the columns of a table's words begin, after n, the two speeds and the loading.
const RELEASE: usize = 4;

const WORK: usize = 4 + 64;

const DEADLINE: usize = 4 + 64 * 2;

const LEVEL: usize = 4 + 64 * 3;

const PROMISED: usize = 4 + 64 * 4;

const FOLLOWS: usize = 4 + 64 * 5;

// Where the columns of a state's words begin, after the clock.
const GOT: usize = 1;

const USED: usize = 1 + 64;

const CLOSING: usize = 1 + 64 * 2;

// The sixty-four words from a place on.
fn column(words: &[u32], from: usize) -> [u32; 64]
    requires { from + 64 ≤ length words.now }
    ensures { result ≡ column_at from words.now }
{
    let mut out = [0u32; 64];
    out.copy_from_slice(&words[from..from + 64]);
    out
}

// Writes a column over the words from a place on.
fn put_column(words: &mut [u32], from: usize, entries: [u32; 64])
    requires { from + 64 ≤ length words.old }
    ensures { words.new ≡ paste words.old from entries 64 }
{
    words[from..from + 64].copy_from_slice(&entries);
}

// The table that the words hold, as specs/Words lays it out.
#[tactic(auto, unfolding(crate::specs::Words::table_in))]
pub fn table_in(words: &[u32; 388]) -> Table
    ensures { result ≡ table_in words.now }
{
    Table {
        n: words[0],
        normal: words[1],
        degraded: words[2],
        loading: words[3],
        release: column(words, RELEASE),
        work: column(words, WORK),
        deadline: column(words, DEADLINE),
        level: column(words, LEVEL),
        promised: column(words, PROMISED),
        follows: column(words, FOLLOWS),
    }
}

// The words of a table.
pub fn words_of(t: Table) -> [u32; 388]
    ensures { result ≡ words_of t }
{
    let mut words = [0u32; 388];
    words[0] = t.n;
    words[1] = t.normal;
    words[2] = t.degraded;
    words[3] = t.loading;
    // Columns are handed over by value, and not lent: a table that is lent from is copied whole, which takes more stack (tried).
    let release = t.release;
    let work = t.work;
    let deadline = t.deadline;
    let level = t.level;
    let promised = t.promised;
    let follows = t.follows;
    put_column(&mut words, RELEASE, release);
    put_column(&mut words, WORK, work);
    put_column(&mut words, DEADLINE, deadline);
    put_column(&mut words, LEVEL, level);
    put_column(&mut words, PROMISED, promised);
    put_column(&mut words, FOLLOWS, follows);
    words
}

// The run record that the words of a table, an order and the words of a state hold.
#[tactic(auto, unfolding(crate::specs::Words::run_in))]
pub fn run_in(table: &[u32; 388], order: [u8; 64], state: [u32; 193]) -> Run
    ensures { result ≡ run_in table.now order state }
{
    Run {
        table: table_in(table),
        order,
        clock: state[0],
        got: column(&state, GOT),
        used: column(&state, USED),
        closing: column(&state, CLOSING),
    }
}

// The words of a run record's state.
pub fn state_words(run: Run) -> [u32; 193]
    ensures { result ≡ state_words run }
{
    let mut words = [0u32; 193];
    words[0] = run.clock;
    // By value, as the columns of a table are.
    let got = run.got;
    let used = run.used;
    let closing = run.closing;
    put_column(&mut words, GOT, got);
    put_column(&mut words, USED, used);
    put_column(&mut words, CLOSING, closing);
    words
}
