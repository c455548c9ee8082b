// Trials by shared sweeps: the rows left in busy periods, and the first entry of the trial sequence whose row is in time (rules 4.2 to 4.4).
// The first row is row 1; the rows left are a word in which row i is bit i - 1 (rule 4.8). Entries of the trial sequence and places of the queue
// count from 0 where they are stored and as bits of a word, and from 1 where they are handed to functions on words.
#![tactic(auto)]

ghost use Rattle.std.specs.Prelude.{◌≡◌, ◌≤◌, ◌<◌};
ghost use Rattle.rules.specs.Rows.{at};
ghost use Rattle.sweep.specs.Masks.{is_left};
ghost use Rattle.sweep.specs.Padded.{Rows};
ghost use Rattle.periods.specs.Entries.{Entries, timely};
ghost use Rattle.periods.specs.Lent.{Tried, Seated, Parted, GroupedIn, RenewedIn, KnownOf, OpenIn, FirstAt, in_time_at, part_in_time_at, low_in_time_at, unswept, without_placed};

use sweep::Workload;

// The rows of a sheet at one speed as trials take them: their workload, by row their deadlines in slots, the trial sequence, and by row their entries in it.
#[derive(Clone, Copy)]
pub struct AtSpeed<'a> {
    pub load: Workload<'a>,
    pub deadline: &'a [u32; 64],
    pub sequence: &'a [u8; 64],
    pub entry: &'a [u8; 64],
}

impl AtSpeed<'_> {
    // Of the rows left from place `first` of the queue to before place `end`, which by the sweep all finish at one clock: the entries of those that finish
    // by their deadlines, as a word. For a row that none of them follows this is its trial (rule 4.4); others are not looked up (rule 4.11). Clock in slots.
    fn in_time(&self, left: u64, first: u32, end: u32, clock: u32) -> u64
        requires { (end ≤ 64) × Rows self.now.load.queue.now end × Entries self.now.entry.now }
        ensures { result ≡ timely (λ j. is_left left j) (λ j. at self.now.deadline.now j) (λ j. at self.now.entry.now j) clock
            self.now.load.queue.now first end }
    {
        // Taken apart once, and not read through `self` in each turn of the loop.
        let AtSpeed {
            load,
            deadline,
            entry,
            ..
        } = *self;
        let mut word: u64 = 0;
        for k in first..end {
            let row = load.queue[k as usize];
            if sweep::has(left, row) && clock <= sweep::entry(deadline, row) {
                word |= 1 << entry[(row - 1) as usize];
            }
        }
        word
    }

    // Sweeps the rows left of one busy period, that which began at place `begin` of the queue: without a row it may have fallen into several. Notes of
    // each row the place where its busy period begins, and gives the entries of those that finish by their deadlines, as a word. Rows of a busy
    // period finish together by the sweep, when its busy time ends.
    pub fn renew(&self, left: u64, begin: u8, period: &mut [u8; 64]) -> u64
        requires { Tried self.now × GroupedIn self.now left period.old × (begin < self.now.load.n) }
        ensures { RenewedIn self.now left begin period.old period.new result }
    {
        // Copied, so that no write to `period` in the loop can be taken for one to it.
        let load = self.load;
        let mut passing: u64 = 0;
        let mut busy: u32 = 0;
        let mut first = begin as u32;
        for k in first..load.n {
            let row = load.queue[k as usize];
            if sweep::has(left, row) {
                let i = (row - 1) as usize;
                if period[i] != begin {
                    return passing | self.in_time(left, first, k, busy);
                }
                let r = load.release[i];
                if busy <= r {
                    passing |= self.in_time(left, first, k, busy);
                    first = k;
                }
                busy = sweep::busy_after(busy, r, load.cap[i]);
                period[i] = first as u8;
            }
        }
        passing | self.in_time(left, first, load.n, busy)
    }
}

// What promised parts are tried with: the rows at the degraded speed, and by row the parts in work units and their needs in slots.
#[derive(Clone, Copy)]
pub struct Promises<'a> {
    pub slow: AtSpeed<'a>,
    pub promised: &'a [u32; 64],
    pub part: &'a [u32; 64],
}

impl Promises<'_> {
    // Whether a row, tried with every other row left above it, has its promised part by its deadline (rules 3.9, 4.4); a row that is promised nothing
    // has it always.
    pub fn part_in_time(&self, left: u64, row: u8) -> bool
        requires { Parted self.now × (1 ≤ row) × (row ≤ 64) }
        ensures { result ≡ part_in_time_at self.now left row }
    {
        if sweep::entry(self.promised, row) == 0 {
            return true;
        }
        let own = sweep::entry(self.part, row);
        let moment = self.slow.load.part_finish(own, left, row);
        moment <= sweep::entry(self.slow.deadline, row)
    }
}

// What is known of the busy periods of the rows left at one speed: by row the place of the queue where its period begins; the periods that have changed
// since they were swept, by the places where they begin; and the entries known to be in time by the sweep, both as words.
#[derive(Clone, Copy)]
pub struct BusyPeriods {
    pub period: [u8; 64],
    pub changed: u64,
    pub passing: u64,
}

impl BusyPeriods {
    // Before the first sweep: all rows are taken for one busy period, which has changed, and none is known to be in time.
    pub fn unswept() -> BusyPeriods
        ensures { result ≡ unswept }
    {
        BusyPeriods {
            period: [0; 64],
            changed: 1,
            passing: 0,
        }
    }

    // A row gets a place and is left no more: the busy period that it stood in has changed.
    pub fn placed(&mut self, row: u8)
        requires { (1 ≤ row) × (row ≤ 64) × (at self.old.period row < 64) }
        ensures { self.new ≡ without_placed self.old row }
    {
        self.changed |= 1 << self.period[(row - 1) as usize];
    }

    // The first of the open entries whose row passes at one speed (rules 4.2, 4.3). A row that passed still does with fewer rows above it; so
    // busy periods that have changed are swept anew only where the first open entry is not known to pass.
    pub fn first_in_time(&mut self, speed: &AtSpeed, left: u64, word: u64) -> Option<u8>
        requires { Tried speed.now × KnownOf speed.now left self.old × OpenIn speed.now left word }
        ensures { FirstAt (in_time_at speed.now left) speed.now left word result × KnownOf speed.now left self.new }
    {
        if word == 0 {
            return None;
        }
        let next = sweep::lowest(word);
        if sweep::has(self.passing, next) {
            return Some(next);
        }
        // The lowest one of a word each time: there is no index to go over.
        while self.changed != 0 {
            let begin = sweep::lowest(self.changed);
            self.changed = sweep::without(self.changed, begin);
            self.passing |= speed.renew(left, begin - 1, &mut self.period);
        }
        let passed = word & self.passing;
        if passed == 0 {
            None
        } else {
            Some(sweep::lowest(passed))
        }
    }

    // The first of the open entries of LO rows whose row passes (rules 4.2 to 4.4): it finishes in time at the normal speed, and its promised part is in
    // time at the degraded one. Each entry that is in time at the normal speed is asked for its part, until one has it.
    pub fn first_low(
        &mut self,
        normal: &AtSpeed,
        parts: &Promises,
        left: u64,
        word: u64,
    ) -> Option<u8>
        requires { Tried normal.now × Seated normal.now × Parted parts.now × KnownOf normal.now left self.old × OpenIn normal.now left word }
        ensures { FirstAt (low_in_time_at normal.now parts.now left) normal.now left word result × KnownOf normal.now left self.new }
    {
        let mut asked = word;
        // It asks until no entry is found, so that no range counts it.
        while let Some(entry) = self.first_in_time(normal, left, asked) {
            let row = normal.sequence[(entry - 1) as usize];
            if parts.part_in_time(left, row) {
                return Some(entry);
            }
            asked = sweep::without(asked, entry);
        }
        None
    }
}
