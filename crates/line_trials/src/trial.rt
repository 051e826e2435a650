// One line beside the plain list.
use crate::plain::{Plain, Refused};
use line::{Act, Line};
use numbers::Numbers;
use refusal::Refusal;

const TURNS: u32 = 30_000;

// What came in one trial.
#[derive(Default, Drop)]
struct Tally {
    puts: u32,
    takes: u32,
    bad_levels: u32,
    full: u32,
    empty: u32,
    questions: u32,
    differences: u32,
}

impl Tally {
    // Counts an answer to an act by what the plain list answered, and whether the line answered the same.
    fn act(&mut self, act: Act, theirs: Result<u8, Refused>, same: bool) {
        let counter = match (theirs, act) {
            (Err(Refused::NoLevel), _) => &mut self.bad_levels,
            (Err(Refused::Full), _) => &mut self.full,
            (Err(Refused::Empty), _) => &mut self.empty,
            (Ok(_), Act::Put(_)) => &mut self.puts,
            (Ok(_), Act::Take) => &mut self.takes,
        };
        *counter = counter.saturating_add(1);
        self.differ(same);
    }

    fn question(&mut self, same: bool) {
        self.questions = self.questions.saturating_add(1);
        self.differ(same);
    }

    fn differ(&mut self, same: bool) {
        self.differences = self.differences.saturating_add(u32::from(!same));
    }
}

// A line, the plain list that it is compared with, and what came so far.
#[derive(Drop)]
struct Trial<L> {
    line: L,
    plain: Plain,
    tally: Tally,
    numbers: Numbers,
    filling: bool,
}

impl<L: Line> Trial<L> {
    // The next act. While the list fills, three of four are puts, and while it empties, three of four are takes; now and then a put has
    // no level.
    fn next_act(&mut self) -> Act {
        if (self.numbers.below(4) == 0) == self.filling {
            Act::Take
        } else if self.numbers.below(16) == 0 {
            Act::Put(self.numbers.below(256) as u8)
        } else {
            Act::Put(self.numbers.below(2) as u8)
        }
    }

    // One act on both. The plain list has a method for each act, as a line has, so a match says which.
    fn act(&mut self) -> anyhow::Result<()> {
        let act = self.next_act();
        let theirs = match act {
            Act::Take => self.plain.take(),
            Act::Put(level) => self.plain.put(level)?,
        };
        let ours = line::perform(&mut self.line, act).map_err(Refusal::number);
        let same = ours == theirs.map_err(|refused| refused as u8);
        self.tally.act(act, theirs, same);
        Ok(())
    }

    // A place to look at: most often near the levels that wait, at times far off.
    fn somewhere(&mut self) -> usize {
        match self.numbers.below(32) {
            0 => usize::MAX,
            1 => self.plain.places,
            _ => self
                .numbers
                .below((self.plain.waiting.len() as u64).saturating_add(2)) as usize,
        }
    }

    fn ask(&mut self) {
        let plain = &self.plain;
        self.tally
            .question(self.line.count() == plain.waiting.len());
        self.tally.question(self.line.places() == plain.places);
        self.tally.question(self.line.last_taken() == plain.last);
        let k = self.somewhere();
        self.tally.question(self.line.level_at(k) == self.plain.waiting.get(k).copied());
    }

    fn turn(&mut self) -> anyhow::Result<()> {
        self.act()?;
        self.ask();
        if self.plain.waiting.is_empty() {
            self.filling = true;
        } else if self.plain.is_full() {
            self.filling = false;
        }
        Ok(())
    }
}

// Random acts and questions on a line that holds what the plain list holds; it prints what came of them.
pub(crate) fn run<L: Line + Drop>(
    rt: &HostRuntime,
    name: &str,
    line: L,
    plain: Plain,
) -> anyhow::Result<()> {
    let mut trial = Trial {
        line,
        plain,
        tally: Tally::default(),
        numbers: Numbers::from_seed(crate::SEED),
        filling: true,
    };
    trial.ask();
    for _ in 0..TURNS {
        trial.turn()?;
    }
    let tally = &trial.tally;
    println!(rt;
        "{name}: places {}, puts {}, takes {}, refusals 2: {}, 16: {}, 17: {}, questions {}, differences {}",
        trial.plain.places,
        tally.puts,
        tally.takes,
        tally.bad_levels,
        tally.full,
        tally.empty,
        tally.questions,
        tally.differences
    )?;
    Ok(())
}
