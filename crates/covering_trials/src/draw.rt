// Charts drawn by a simple generator, the same on every run.
use crate::sample::{MOST_COLUMNS, MOST_NEEDS, Sample};
use std::array;
use terms::Term;

#[derive(Drop)]
pub struct Dice {
    state: u32,
}

impl Dice {
    pub fn new() -> Dice {
        Dice { state: 2026 }
    }

    // A number below n, where n is at most 65,536; 0 where n is 0.
    fn roll(&mut self, n: u32) -> u32 {
        self.state = self.state.wrapping_mul(1664525).wrapping_add(1013904223);
        if n == 0 { 0 } else { (self.state >> 16) % n }
    }

    // A term of one to three contacts over three inputs, so that prices often tie.
    fn term(&mut self) -> Term {
        let mask = (self.roll(8) & 0xff) as u8;
        let levels = (self.roll(8) & 0xff) as u8;
        Term::new(8, mask, levels & mask).unwrap_or(Term { mask: 0, levels: 0 })
    }

    // A term for each of ten columns.
    fn terms(&mut self) -> [Term; MOST_COLUMNS] {
        array::from_fn(|_| self.term())
    }

    // Which of ten columns hold which of twelve needs: `dense` cells in eight.
    fn cells(&mut self, dense: u32) -> [bool; MOST_COLUMNS * MOST_NEEDS] {
        array::from_fn(|_| self.roll(8) < dense)
    }

    // The chart of a number: the denser the higher its remainder by five.
    pub fn sample(&mut self, number: usize) -> Sample {
        let columns = 1 + self.roll(MOST_COLUMNS as u32) as usize;
        let needs = self.roll(MOST_NEEDS as u32 + 1) as usize;
        let terms = self.terms();
        let cells = self.cells(2 + (number % 5) as u32);
        Sample {
            columns,
            needs,
            cells,
            terms,
        }
    }
}
