// One table on the bench, which requests edit as a draft and read as a running table.
ghost use Rattle.std.specs.Prelude.{◌≡◌, ◌≤◌, take};
ghost use Rattle.memory.specs.Held.{word_cells};
ghost use Rattle.tables.specs.Factory.{factory};
ghost use Rattle.unit.specs.Steps.{moment};
ghost use Rattle.bench_unit.specs.Asks.{Asked};

use bench_unit::{LentMemory, factory_words};
use memory::CELLS;
use unit::answer::{Answer, QUIET};

// The mode that a request which edits is handed: an edit is open.
const EDITING: u8 = 1;

// The table, the memory that stands beside it in each request, and the memory that is lent.
#[derive(Drop)]
pub struct Desk {
    pub table: [u16; CELLS],
    beside: [u16; CELLS],
    lent: LentMemory,
}

impl Desk {
    // A desk with the factory table.
    pub fn at_factory() -> Desk
        ensures { word_cells result.table ≡ factory }
    {
        let mut table = [0; CELLS];
        let _ = factory_words(&mut table);
        Desk {
            table,
            beside: [0; CELLS],
            lent: LentMemory::new(),
        }
    }

    // A request that edits: the table is its draft.
    pub fn edit(&mut self, octets: &[u8]) -> Answer
        ensures asked { Asked (moment (word_cells self.old.beside) (word_cells self.old.table) 1) octets.now result (take result.length self.new.lent.reply) (moment (word_cells self.new.beside) (word_cells self.new.table) result.mode) }
        ensures bound { result.length ≤ 1024 }
    {
        self.lent
            .ask(EDITING, &mut self.beside, &mut self.table, octets)
    }

    // A request that reads: the table is the running one.
    pub fn read(&mut self, octets: &[u8]) -> Answer
        ensures asked { Asked (moment (word_cells self.old.table) (word_cells self.old.beside) 0) octets.now result (take result.length self.new.lent.reply) (moment (word_cells self.new.table) (word_cells self.new.beside) result.mode) }
        ensures bound { result.length ≤ 1024 }
    {
        self.lent
            .ask(QUIET, &mut self.table, &mut self.beside, octets)
    }

    // The octets of the last reply, by its length.
    pub fn reply(&self, length: usize) -> &[u8]
        ensures { result.now ≡ take length self.now.lent.reply }
    {
        self.lent.reply(length)
    }
}
