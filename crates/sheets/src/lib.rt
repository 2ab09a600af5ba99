// Sheets: counts of what comes of files; the names of a list of files; the lines printed.
#![tactic(auto)]

ghost use Rattle.std.specs.Prelude.{◌<◌, ◌≤◌, [], ◌∷◌, length};
ghost use Rattle.sheets.specs.Sheet.{unreadable, refused, accepted, blank};
ghost use Rattle.sheets.specs.Answer.{firsts, outcome_of};
ghost use Rattle.sheets.specs.Counts.{Counted, Stands, Adds};

use document::Verdict;

pub mod file_names;
pub mod lines;

// How many files are accepted, refused and unreadable; how many files are refused with each number, how many rows are of each kind, how many
// warnings have each reason. Numbers, kinds and reasons are below 32.
#[derive(Clone, Copy)]
pub struct Counts {
    pub accepted: u32,
    pub refused: u32,
    pub unreadable: u32,
    pub numbers: [u32; 32],
    pub kinds: [u32; 32],
    pub reasons: [u32; 32],
}

// Counts a word, if it is below 32.
fn count(table: &mut [u32; 32], word: u32)
    ensures { Counted (word ∷ []) table.old table.new }
{
    if word < 32 {
        let at = word as usize;
        table[at] = table[at].wrapping_add(1);
    }
}

// Counts word 0 of each of n records of `width` words, as far as the words go.
#[tactic(auto, using(crate::proofs::Counting::counting))]
fn count_firsts(table: &mut [u32; 32], words: &[u32], n: usize, width: usize)
    requires some { 0 < width }
    requires few { width ≤ 16 }
    ensures { Counted (firsts width n words.now) table.old table.new }
{
    for record in words.chunks(width).take(n) {
        count(table, record[0]);
    }
}

impl Counts {
    // The counts of no file.
    pub fn new() -> Counts
        ensures { Stands 0 blank result }
    {
        Counts {
            accepted: 0,
            refused: 0,
            unreadable: 0,
            numbers: [0; 32],
            kinds: [0; 32],
            reasons: [0; 32],
        }
    }

    // Adds a name of which nothing could be read.
    #[tactic(auto, using(crate::proofs::Adding::adds))]
    pub fn add_unreadable(&mut self)
        ensures { Adds unreadable self.old self.new }
    {
        self.unreadable = self.unreadable.wrapping_add(1);
    }

    // Adds a file that is refused with a number.
    #[tactic(auto, using(crate::proofs::Adding::adds))]
    pub fn add_refused(&mut self, number: u32)
        ensures { Adds (refused number) self.old self.new }
    {
        self.refused = self.refused.wrapping_add(1);
        count(&mut self.numbers, number);
    }

    // Adds a file that is accepted, with r rows and w warnings.
    #[tactic(auto, using(crate::proofs::Adding::adds))]
    fn add_accepted(&mut self, rows: &[u32], r: usize, warnings: &[u32], w: usize)
        requires few_rows { length rows.now ≤ 16384 }
        requires few_warnings { length warnings.now ≤ 16384 }
        ensures { Adds (accepted (firsts 16 r rows.now) (firsts 4 w warnings.now))
            self.old self.new }
    {
        self.accepted = self.accepted.wrapping_add(1);
        count_firsts(&mut self.kinds, rows, r, 16);
        count_firsts(&mut self.reasons, warnings, w, 4);
    }

    // Adds a file of which the reader answered so, and left these rows and warnings.
    #[tactic(auto, using(crate::proofs::Adding::adds))]
    pub fn add(&mut self, v: Verdict, rows: &[u32], warnings: &[u32])
        requires few_rows { length rows.now ≤ 16384 }
        requires few_warnings { length warnings.now ≤ 16384 }
        ensures { Adds (outcome_of v rows.now warnings.now) self.old self.new }
    {
        match v {
            Err(refusal) => self.add_refused(refusal.number),
            Ok(read) => self.add_accepted(rows, read.rows, warnings, read.warnings),
        }
    }
}
