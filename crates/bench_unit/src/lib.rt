// A unit with memories of its own, as a program holds it.
#![tactic(auto)]

ghost use Rattle.std.specs.Prelude.{◌≡◌, ◌≤◌, take, replicate};
ghost use Rattle.memory.specs.Held.{word_cells};
ghost use Rattle.replies.specs.Replies.{reply_room};
ghost use Rattle.tables.specs.Factory.{factory};
ghost use Rattle.unit.specs.Steps.{moment};
ghost use Rattle.bench_unit.specs.Asks.{Asked};

use memory::{CELLS, WordMemory};
use replies::REPLY_OCTETS;
use tables::work::{Finding, StagedWrite};
use unit::answer::Answer;
use unit::request::{FINDINGS, NO_FINDING, NO_WRITE, WRITES, request};
use unit::start::factory_start;

// The memory that is lent for a request, all of it fixed, as a cabinet's is.
#[derive(Drop)]
pub struct LentMemory {
    reply: [u8; REPLY_OCTETS],
    writes: [StagedWrite; WRITES],
    findings: [Finding; FINDINGS],
}

impl LentMemory {
    pub fn new() -> LentMemory
        ensures { result.reply ≡ replicate reply_room 0 }
    {
        LentMemory {
            reply: [0; REPLY_OCTETS],
            writes: [NO_WRITE; WRITES],
            findings: [NO_FINDING; FINDINGS],
        }
    }

    // One request, with one word to a cell in both memories.
    pub fn ask(
        &mut self,
        mode: u8,
        running: &mut [u16; CELLS],
        draft: &mut [u16; CELLS],
        octets: &[u8],
    ) -> Answer
        ensures asked { Asked (moment (word_cells running.old) (word_cells draft.old) mode) octets.now result (take result.length self.new.reply) (moment (word_cells running.new) (word_cells draft.new) result.mode) }
        ensures bound { result.length ≤ 1024 }
    {
        request(
            mode,
            &mut WordMemory { words: running },
            &mut WordMemory { words: draft },
            octets,
            &mut self.reply,
            &mut self.writes,
            &mut self.findings,
        )
    }

    // The octets of the last reply, by its length.
    pub fn reply(&self, length: usize) -> &[u8]
        ensures { result.now ≡ take length self.now.reply }
    {
        &self.reply[..length.min(REPLY_OCTETS)]
    }
}

// Makes the words those of the factory table; the mode after it.
pub fn factory_words(words: &mut [u16; CELLS]) -> u8
    ensures cells { word_cells words.new ≡ factory }
    ensures mode { result ≡ 0 }
{
    factory_start(&mut WordMemory { words }).mode
}

// One word to a cell in both memories, the memory that is lent for a request, and the mode between two requests, as the
// unit's call takes it.
#[derive(Drop)]
pub struct BenchUnit {
    running: [u16; CELLS],
    draft: [u16; CELLS],
    lent: LentMemory,
    mode: u8,
}

impl BenchUnit {
    // A unit that has just begun on the factory table.
    pub fn at_factory() -> BenchUnit
        ensures running { word_cells result.running ≡ factory }
        ensures mode { result.mode ≡ 0 }
    {
        let mut running = [0; CELLS];
        let mode = factory_words(&mut running);
        BenchUnit {
            running,
            draft: [0; CELLS],
            lent: LentMemory::new(),
            mode,
        }
    }

    // One request, in the mode that the request before left.
    pub fn ask(&mut self, octets: &[u8]) -> Answer
        ensures asked { Asked (moment (word_cells self.old.running) (word_cells self.old.draft) self.old.mode) octets.now result (take result.length self.new.lent.reply) (moment (word_cells self.new.running) (word_cells self.new.draft) self.new.mode) }
        ensures bound { result.length ≤ 1024 }
    {
        let answer = self
            .lent
            .ask(self.mode, &mut self.running, &mut self.draft, octets);
        self.mode = answer.mode;
        answer
    }

    // The octets of the last reply, by its length.
    pub fn reply(&self, length: usize) -> &[u8]
        ensures { result.now ≡ take length self.now.lent.reply }
    {
        self.lent.reply(length)
    }
}
